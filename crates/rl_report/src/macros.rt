//! Texts that are beside the variants of an enum.

/// The text that is beside the variant of a value:
/// `text_beside! { cause: Cause; Closed b"it ended", Memory b"no memory" }`.
#[macro_export]
macro_rules! text_beside {
    ($value:ident: $type:ident; $($name:ident $({ $($rest:tt)* })? $text:literal),+) => {
        match $value {
            $($type::$name $({ $($rest)* })? => $text,)+
        }
    };
}
