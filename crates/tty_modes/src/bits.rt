//! The flags as bits of one number: the flag at place k is bit k.

ghost use Rattle.std.specs.Prelude.{⊤, ◌≡◌, ◌^◌, ◌<◌};
ghost use Rattle.tty_modes.specs.Names.{flag_names, with_bits};

use bitflags::{Flag, Flags, bitflag_items};

/// A set of flags. Its names are the mode words.
#[derive(Clone, Copy, PartialEq, Eq, Debug)]
pub(crate) struct ModeBits(pub(crate) u32);

bitflag_items! {
    impl ModeBits: u32 {
        const ignbrk = 0x0000_0001;
        const brkint = 0x0000_0002;
        const ignpar = 0x0000_0004;
        const parmrk = 0x0000_0008;
        const inpck = 0x0000_0010;
        const istrip = 0x0000_0020;
        const inlcr = 0x0000_0040;
        const igncr = 0x0000_0080;
        const icrnl = 0x0000_0100;
        const ixon = 0x0000_0200;
        const ixany = 0x0000_0400;
        const ixoff = 0x0000_0800;
        const opost = 0x0000_1000;
        const onlcr = 0x0000_2000;
        const ocrnl = 0x0000_4000;
        const onocr = 0x0000_8000;
        const tab3 = 0x0001_0000;
        const isig = 0x0002_0000;
        const icanon = 0x0004_0000;
        const echo = 0x0008_0000;
        const echoe = 0x0010_0000;
        const echok = 0x0020_0000;
        const echoke = 0x0040_0000;
        const echonl = 0x0080_0000;
        const echoctl = 0x0100_0000;
        const noflsh = 0x0200_0000;
        const iexten = 0x0400_0000;
        const iutf8 = 0x0800_0000;
        const tostop = 0x1000_0000;
    }
}

impl ModeBits {
    /// The flags that are set by default.
    pub(crate) const SANE: ModeBits = ModeBits(
        ModeBits::icrnl.0
            | ModeBits::ixon.0
            | ModeBits::opost.0
            | ModeBits::onlcr.0
            | ModeBits::isig.0
            | ModeBits::icanon.0
            | ModeBits::echo.0
            | ModeBits::echoe.0
            | ModeBits::echok.0
            | ModeBits::echoke.0
            | ModeBits::echoctl.0
            | ModeBits::iexten.0,
    );

    /// The flags that cfmakeraw(3) clears.
    pub(crate) const RAW: ModeBits = ModeBits(
        ModeBits::ignbrk.0
            | ModeBits::brkint.0
            | ModeBits::parmrk.0
            | ModeBits::istrip.0
            | ModeBits::inlcr.0
            | ModeBits::igncr.0
            | ModeBits::icrnl.0
            | ModeBits::ixon.0
            | ModeBits::opost.0
            | ModeBits::echo.0
            | ModeBits::echonl.0
            | ModeBits::icanon.0
            | ModeBits::isig.0
            | ModeBits::iexten.0,
    );
}

impl Flags for ModeBits {
    type Bits = u32;

    ghost exact = { ⊤ };

    ghost table = { with_bits 0 flag_names };

    ghost set_of = { λ b. b.0 };

    fn flags<'a>() -> &'a [Flag<ModeBits>] {
        ModeBits::FLAGS
    }

    fn bits(&self) -> u32 {
        self.0
    }

    fn from_bits_retain(bits: u32) -> ModeBits {
        ModeBits(bits)
    }
}

/// The flag at one place.
pub(crate) fn bit(place: u32) -> ModeBits
    requires { place < 29 }
    ensures { result.0 ≡ 2 ^ place }
{
    ModeBits(1 << place)
}
