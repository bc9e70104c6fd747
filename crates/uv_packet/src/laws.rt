//! What the two directions have to do with each other.

ghost use Rattle.std.specs.Prelude.{◌≡◌, ◌+◌, ◌%◌, ◌<◌, ◌≤◌, ℕ, List, None, Some, slice_index};
ghost use Rattle.uv_packet.specs.Syndromes.{TellWhatTheyMean};
ghost use Rattle.uv_packet.specs.Packets.{Content, ContentFits, IsPacket, IsPacketValue, bytes_of, pad_of};
ghost use Rattle.uv_packet.specs.Reading.{dest_at};
ghost use Rattle.uv_packet.specs.Refusal.{packet_of};

/// Bytes that no fault refuses are the bytes of the packet that is read from them.
pub fn accepted_bytes_are_a_packet()
    ensures { (bytes : List ℕ) (p : Content) → ((i : ℕ) → slice_index bytes i < 256) → packet_of bytes ≡ Some p → IsPacket bytes p }
{}

/// The bytes of a packet are not refused, whatever they have where nothing has a meaning, and that packet is read from
/// them.
pub fn packet_is_read()
    ensures { (bytes : List ℕ) (p : Content) → IsPacket bytes p → packet_of bytes ≡ Some p }
{}

/// The queue pair that bytes tell is the one that the packet read from them goes to.
pub fn dest_is_the_packets()
    ensures { (bytes : List ℕ) (p : Content) → packet_of bytes ≡ Some p → dest_at bytes ≡ p.dest }
{}

/// What was written is read again.
pub fn written_packet_is_read_back()
    ensures { (p : Content) → IsPacketValue p → ContentFits p → packet_of (bytes_of p) ≡ Some p }
{}

/// No bytes are those of two packets.
pub fn packet_has_one_reading()
    ensures { (bytes : List ℕ) (p q : Content) → IsPacket bytes p → IsPacket bytes q → p ≡ q }
{}

/// The pad fills a payload up to a multiple of 4, and no smaller number does.
pub fn pad_is_the_least()
    ensures fills { (n : ℕ) → (n + pad_of n) % 4 ≡ 0 }
    ensures least { (n k : ℕ) → (n + k) % 4 ≡ 0 → pad_of n ≤ k }
{}

/// Each syndrome that is written tells what it means.
pub fn syndromes_tell_what_they_mean()
    ensures { TellWhatTheyMean }
{}
