// The mode of a message, by its TID.
ghost use Rattle.std.specs.Prelude.{◌≡◌};
ghost use Rattle.ftd.specs.Mode.{mode_of};

#[derive(Clone, Copy)]
pub enum Mode {
    Private,
    Broadcast,
    Management,
    Dialog,
    Unknown, // not in Appendix A
}

pub fn mode_of(tid: u32) -> Mode
    ensures { result ≡ mode_of tid }
{
    match tid {
        0x1001..=0x1003 => Mode::Private,
        0x2001..=0x2007 => Mode::Broadcast,
        0x0016 | 0x0017 | 0x1005 => Mode::Management,
        0x0001..=0x000E => Mode::Dialog,
        0x0012..=0x0015 => Mode::Dialog,
        0x0018 => Mode::Dialog,
        _ => Mode::Unknown,
    }
}
