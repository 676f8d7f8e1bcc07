//! Fields and numbers in strings of bytes.

ghost use Rattle.std.specs.Prelude.{◌≡◌, ◌+◌, ◌≤◌, ◌++◌, length};
ghost use Rattle.lms_core.specs.Bytes.{u32_str, u16_str, field, u32_at};

/// The `N` bytes from byte `at` on.
pub(crate) fn field_at<const N: usize>(bytes: &[u8], at: usize) -> [u8; N]
    requires { at + N ≤ length bytes.now }
    ensures { result ≡ field at N bytes.now }
{
    let mut copy = [0; N];
    copy.copy_from_slice(&bytes[at..at + N]);
    copy
}

/// The number in the four bytes from byte `at` on.
#[tactic(auto, unfolding(crate::specs::Bytes::u32_at))]
pub(crate) fn number_at(bytes: &[u8], at: usize) -> u32
    requires { at + 4 ≤ length bytes.now }
    ensures { result ≡ u32_at at bytes.now }
{
    u32::from_be_bytes(field_at::<4>(bytes, at))
}

/// A number in four bytes.
#[tactic(auto, unfolding(crate::specs::Bytes::u32_str))]
pub(crate) fn four_bytes(number: u32) -> [u8; 4]
    ensures { result ≡ u32_str number }
{
    number.to_be_bytes()
}

/// A number in two bytes.
#[tactic(auto, unfolding(crate::specs::Bytes::u16_str))]
pub(crate) fn two_bytes(number: u16) -> [u8; 2]
    ensures { result ≡ u16_str number }
{
    number.to_be_bytes()
}

/// Fills `out` with `first` and then `second`.
pub(crate) fn join_into(out: &mut [u8], first: &[u8], second: &[u8])
    requires { length out.old ≡ length first.now + length second.now }
    ensures { out.new ≡ first.now ++ second.now }
{
    let (front, back) = out.split_at_mut(first.len());
    front.copy_from_slice(first);
    back.copy_from_slice(second);
}
