//! Writing frames: how a packet and the offset of its record stand in a block.
ghost use Rattle.std.specs.Prelude.{◌≡◌, ◌+◌, ◌-◌, ◌≤◌, ◌++◌, length, replicate};
ghost use Rattle.std.specs.Int.{w16, w32, to_be_bytes};
ghost use Rattle.sc_slots.specs.Frame.{IsFrame, IsWidth, frame_bytes, width_of};

/// The bytes of a frame before its packet: two of the packet's length and four of the offset.
pub(crate) const FRONT: usize = 6;

/// The bytes of a symbol, for a code of `k` symbols: the least number for which a block holds the frame of a packet of
/// `size` bytes. It takes no memory.
pub fn width(size: u16, k: usize) -> usize
    requires { 1 ≤ k }
    ensures value { result ≡ width_of size k }
    ensures least { IsWidth size k result }
{
    (usize::from(size) + FRONT).div_ceil(k)
}

/// The six bytes before the packet: its length, and the offset.
fn front_of(len: u16, offset: u32) -> [u8; FRONT]
    ensures { result ≡ to_be_bytes w16 len ++ to_be_bytes w32 offset }
{
    let len = len.to_be_bytes();
    let offset = offset.to_be_bytes();
    [len[0], len[1], offset[0], offset[1], offset[2], offset[3]]
}

/// Writes a packet over the front of a slice, and zeros over the rest.
fn write_padded(body: &mut [u8], packet: &[u8])
    requires { length packet.now ≤ length body.old }
    ensures { body.new ≡ packet.now ++ replicate (length body.old - length packet.now) 0 }
{
    let (front, rest) = body.split_at_mut(packet.len());
    front.copy_from_slice(packet);
    rest.fill(0);
}

/// Writes the frame of a packet over a block: two bytes of the packet's length, four of the offset of its record in
/// milliseconds, the packet, and zeros up to the block's end. It takes no memory.
pub fn frame(offset: u32, packet: &[u8], block: &mut [u8])
    requires some { 1 ≤ length packet.now }
    requires length { length packet.now ≤ 65535 }
    requires room { 6 + length packet.now ≤ length block.old }
    ensures bytes { block.new ≡ frame_bytes offset packet.now (length block.old) }
    ensures frame { IsFrame block.new offset packet.now }
{
    let head = front_of(packet.len() as u16, offset);
    let (front, body) = block.split_at_mut(FRONT);
    front.copy_from_slice(&head);
    write_padded(body, packet);
}
