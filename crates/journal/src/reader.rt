//! A reader of a device's strings, as a value: a window of the device's octets, and where the string that was read last
//! stands in it.
ghost use Rattle.std.specs.Prelude.{◌≤◌, vec_len};

/// Reads the strings of a device one after another, by a window of its octets. It holds no more of them than a piece,
/// or than the longest string needs.
#[derive(Drop)]
pub struct StringReader {
    /// Where the frame of the last string ends on the device.
    pub end: u64,
    /// How many octets the device has.
    pub size: u64,
    /// Octets of the device; those behind the last string are the ones behind the end.
    pub(crate) window: Vec<u8>,
    /// Where the last string begins in the window, and where it ends.
    pub(crate) string_start: usize,
    pub(crate) string_end: usize,
    ghost ordered: { string_start ≤ string_end },
    ghost held: { string_end ≤ vec_len window },
}
