// A command and what it comes to.

/// A command with its reply, and with the replies to `status` and `show` behind it; the replies to `show` that may come where it was cut short, and whether
/// it may be asked again where it was carried out.
#[derive(Clone, Copy)]
pub struct Row {
    pub command: &'static [u8],
    pub reply: &'static [u8],
    pub status: &'static [u8],
    pub show: &'static [u8],
    pub between: &'static [&'static [u8]],
    pub repeats: bool,
}
