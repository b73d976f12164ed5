//! The keys of a description.
ghost use Rattle.std.specs.Prelude.{◌≡◌};
ghost use Rattle.rl_desc.specs.Keys.{key_name};

/// A key of a description.
#[derive(Clone, Copy, Debug, PartialEq, Eq)]
pub enum Key {
    /// `block`: the blocks.
    Block,
    /// `file`: the register files.
    File,
    /// `reg`: the registers.
    Reg,
    /// `mem`: the memories.
    Mem,
    /// `map`: the maps, and the map of a place or a flaw.
    Map,
    /// `place`: the places.
    Place,
    /// `flaw`: the flaws.
    Flaw,
    /// `name`: the name of what a row describes.
    Name,
    /// `of`: the path of the block or file around it.
    Of,
    /// `bytes`: the width of a register, a location or a map, in bytes.
    Bytes,
    /// `backdoor`: whether a register or memory has one.
    Backdoor,
    /// `skip`: the sequences that leave a register or memory out.
    Skip,
    /// `field`: the fields of a register, and the field of a flaw.
    Field,
    /// `lsb`: the lowest bit of a field.
    Lsb,
    /// `width`: how many bits a field has.
    Width,
    /// `policy`: an access policy.
    Policy,
    /// `volatile`: whether the device may change a field by itself.
    Volatile,
    /// `compare`: whether checks compare a field.
    Compare,
    /// `alone`: whether a field may be accessed without its register.
    Alone,
    /// `reset`: the reset values of a field.
    Reset,
    /// `size`: how many locations a memory has.
    Size,
    /// `access`: whether the bus may write a memory.
    Access,
    /// `endian`: the endian kind of a map.
    Endian,
    /// `addressing`: what the addresses of a map count.
    Addressing,
    /// `base`: what is added to each address of a root.
    Base,
    /// `parent`: the map above.
    Parent,
    /// `offset`: where a map is in its parent, or an item in its map.
    Offset,
    /// `adapter`: the adapter of a root.
    Adapter,
    /// `predict`: how a root predicts.
    Predict,
    /// `item`: the register or memory of a place or a flaw.
    Item,
    /// `rights`: in which directions a place lets accesses through.
    Rights,
    /// `kind`: the kind of a flaw.
    Kind,
    /// `on`: the reset kind of a flaw.
    On,
    /// `value`: the value of a flaw.
    Value,
    /// `bit`: the bit of a flaw.
    Bit,
    /// `from`: the first address of a flaw.
    From,
    /// `to`: the last address of a flaw.
    To,
    /// `nth`: the number of the item that fails.
    Nth,
}

/// The text beside the key, in a table of all keys.
macro_rules! text_beside {
    ($key:expr; $($name:ident $text:literal),+) => {
        match $key {
            $(Key::$name => $text,)+
        }
    };
}

impl Key {
    /// The key as a description spells it.
    pub fn name(self) -> &'static str
        ensures { result.now ≡ key_name self }
    {
        text_beside! {
            self;
            Block "block", File "file", Reg "reg", Mem "mem", Map "map", Place "place", Flaw "flaw",
            Name "name", Of "of", Bytes "bytes", Backdoor "backdoor", Skip "skip", Field "field", Lsb "lsb",
            Width "width", Policy "policy", Volatile "volatile", Compare "compare", Alone "alone",
            Reset "reset", Size "size", Access "access", Endian "endian", Addressing "addressing", Base "base",
            Parent "parent", Offset "offset", Adapter "adapter", Predict "predict", Item "item",
            Rights "rights", Kind "kind", On "on", Value "value", Bit "bit", From "from", To "to", Nth "nth"
        }
    }
}
