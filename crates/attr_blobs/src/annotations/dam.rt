ghost use Rattle.std.specs.Prelude.{⊤, ◌≡◌, ◌==◌};
ghost use Rattle.std.specs.Option.{option_map};
ghost use Rattle.attr_blobs.specs.annotations.Kinds.{kinds, set_of_number};

use bitflags::{Flag, Flags, bitflag_items};

/// A set of kinds of members (System.Diagnostics.CodeAnalysis.DynamicallyAccessedMemberTypes): a bit each. The public
/// constructors hold the one without parameters, and `ALL` is every bit.
#[derive(Clone, Copy, PartialEq, Eq, Debug)]
pub struct Dam(pub u32);

bitflag_items! {
    impl Dam: u32 {
        const PUBLIC_PARAMETERLESS_CONSTRUCTOR = 0x1;
        const PUBLIC_CONSTRUCTORS = 0x3;
        const NON_PUBLIC_CONSTRUCTORS = 0x4;
        const PUBLIC_METHODS = 0x8;
        const NON_PUBLIC_METHODS = 0x10;
        const PUBLIC_FIELDS = 0x20;
        const NON_PUBLIC_FIELDS = 0x40;
        const PUBLIC_NESTED_TYPES = 0x80;
        const NON_PUBLIC_NESTED_TYPES = 0x100;
        const PUBLIC_PROPERTIES = 0x200;
        const NON_PUBLIC_PROPERTIES = 0x400;
        const PUBLIC_EVENTS = 0x800;
        const NON_PUBLIC_EVENTS = 0x1000;
        const INTERFACES = 0x2000;
        const ALL = 0xffff_ffff;
    }
}

impl Flags for Dam {
    type Bits = u32;

    ghost exact = { ⊤ };

    ghost table = { kinds };

    ghost set_of = { λ d. d.0 };

    fn flags<'a>() -> &'a [Flag<Dam>] {
        Dam::FLAGS
    }

    fn bits(&self) -> u32 {
        self.0
    }

    fn from_bits_retain(bits: u32) -> Dam {
        Dam(bits)
    }
}

impl Dam {
    /// The set that a number in an attribute stands for; None where it has a bit of no kind and isn't `ALL`.
    pub fn of_number(number: u32) -> Option<Dam>
        ensures { option_map (λ d. d.0) result ≡ set_of_number number }
    {
        if number <= 0x3fff || number == 0xffff_ffff {
            Some(Dam(number))
        } else {
            None
        }
    }
}
