//! What the server sends before the first message.
ghost use Rattle.std.specs.Prelude.{◌≡◌, ◌+◌, ◌≤◌, ◌++◌};
ghost use Rattle.arrayvec.specs.ArrayVec.{array_vec_len};
ghost use Rattle.session_defs.specs.Bytes.{sixteen};
ghost use Rattle.session_defs.specs.Sessions.{version, offer, chosen, turned_down};
ghost use Rattle.rfb_view.specs.Greetings.{screen_of};

use arrayvec::ArrayVec;
use gui_edge::text::push_bytes;

/// The version of the protocol, which the viewer sends back.
pub fn version() -> &'static [u8]
    ensures { result.now ≡ version }
{
    b"RFB 003.008\n"
}

/// One security is offered: none.
pub fn offer() -> &'static [u8]
    ensures { result.now ≡ offer }
{
    &[1, 1]
}

/// The security was chosen.
pub fn chosen() -> &'static [u8]
    ensures { result.now ≡ chosen }
{
    &[0, 0, 0, 0]
}

/// Another security was chosen, with the reason why there is no session.
pub fn turned_down() -> &'static [u8]
    ensures { result.now ≡ turned_down }
{
    b"\0\0\0\x01\0\0\0\x04none"
}

/// Adds a number of sixteen bits, high byte first.
pub(crate) fn push_sixteen<const N: usize>(bytes: &mut ArrayVec<u8, N>, number: u16)
    requires { array_vec_len bytes.old + 2 ≤ N }
    ensures items { bytes.new.items ≡ bytes.old.items ++ sixteen number }
    ensures len { array_vec_len bytes.new ≡ array_vec_len bytes.old + 2 }
{
    let [high, low] = number.to_be_bytes();
    bytes.push(high);
    bytes.push(low);
}

/// What the viewer gets to know of the screen: its sizes, the format of its pixels, and its name.
pub fn screen(width: u16, height: u16) -> ArrayVec<u8, 32>
    ensures { result.items ≡ screen_of width height }
{
    let mut bytes = ArrayVec::new();
    push_sixteen(&mut bytes, width);
    push_sixteen(&mut bytes, height);
    push_bytes(
        &mut bytes,
        b"\x10\x10\0\x01\0\x1F\0\x3F\0\x1F\x0B\x05\0\0\0\0\0\0\0\x05scene",
    );
    bytes
}
