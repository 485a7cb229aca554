//! Why a wish isn't granted.
ghost use Rattle.std.specs.Prelude.{◌≡◌};
ghost use Rattle.cip_plugin.specs.FaultNames.{name_of};

use std::alloc::AllocError;

/// What is wrong with a wish.
#[derive(Clone, Copy, PartialEq, Eq)]
pub enum WishFault {
    /// The shelf has no such place.
    NoSuchPlace,
    /// The plugin of that place was included before.
    TakenPlace,
    /// No plugin was given that number.
    NoSuchPlugin,
    /// The plugin of that number was freed.
    Gone,
    /// Memory was refused.
    NoMemory,
}

impl WishFault {
    /// The name of the fault, as a trace shows it.
    pub fn name(self) -> &'static str
        ensures { result.now ≡ name_of self }
    {
        match self {
            WishFault::NoSuchPlace => "NoSuchPlace",
            WishFault::TakenPlace => "TakenPlace",
            WishFault::NoSuchPlugin => "NoSuchPlugin",
            WishFault::Gone => "Gone",
            WishFault::NoMemory => "NoMemory",
        }
    }
}

impl From<AllocError> for WishFault {
    ghost use Rattle.std.specs.Prelude.{◌≡◌};
    ghost use Rattle.cip_plugin.specs.declared.faults.WishFault.{WishFault};

    ghost from_gives = { λ _ fault. fault ≡ WishFault.NoMemory };

    fn from(_error: AllocError) -> WishFault {
        WishFault::NoMemory
    }
}
