// What the words of a call ask for.
ghost use Rattle.std.specs.Prelude.{◌≡◌};
ghost use Rattle.rl_plan.specs.Asked.{asked_by, one_named, two_named, uses_backdoor};

/// By which ways a plan goes.
#[derive(Clone, Copy, Debug, PartialEq, Eq)]
pub enum Asked {
    /// By the bus, and by the backdoor of each register that has one.
    Both,
    /// By the bus alone, as over a link.
    Bus,
}

/// What is written, and by which ways its lines go.
#[derive(Clone, Copy, Debug, PartialEq, Eq)]
pub enum Wanted {
    /// The plan of a description.
    Plan(Asked),
    /// Those of its lines that the session's script needs.
    Added(Asked),
}

impl Asked {
    /// Whether backdoors are used.
    pub fn uses_backdoor(self) -> bool
        ensures { result ≡ uses_backdoor self }
    {
        match self {
            Asked::Both => true,
            Asked::Bus => false,
        }
    }
}

fn one_named(word: &str) -> Option<Wanted>
    ensures { result ≡ one_named word.now }
{
    match word {
        "bus" => Some(Wanted::Plan(Asked::Bus)),
        "add" => Some(Wanted::Added(Asked::Both)),
        _ => None,
    }
}

fn two_named(first: &str, second: &str) -> Option<Wanted>
    ensures { result ≡ two_named first.now second.now }
{
    if first == "add" && second == "bus" {
        Some(Wanted::Added(Asked::Bus))
    } else {
        None
    }
}

/// What the words ask for: nothing for a plan by all ways, and `bus` for one by the bus alone. `add` is for the lines
/// that the script needs, by all ways, and `add bus` for those by the bus alone. There is none where they ask for
/// nothing known.
pub fn asked_by(words: &[String]) -> Option<Wanted>
    ensures { result ≡ asked_by words.now }
{
    match words {
        [] => Some(Wanted::Plan(Asked::Both)),
        [word] => one_named(word.as_str()),
        [first, second] => two_named(first.as_str(), second.as_str()),
        _ => None,
    }
}
