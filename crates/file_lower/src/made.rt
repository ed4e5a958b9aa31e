//! Exits that let go of what is held.

/// What was made, as `?` gives it. Values after it are let go by a call before the function is left: where they are let
/// go in place, each exit costs the check what all their forms cost.
macro_rules! made {
    ($result:expr, $($held:ident),+) => {
        match $result {
            Ok(made) => made,
            Err(error) => {
                $(drop($held);)+
                return Err(error);
            }
        }
    };
}

pub(crate) use made;
