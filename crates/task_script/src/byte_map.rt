use handoff_data::{Line, NoMemory};
use std::alloc::Global;
use std::marker::Model;

/// A map of bytes: a byte for each of the 256, and a line feed for none but itself, so that it makes a line of each
/// line. Contracts see it as the list of its bytes.
#[derive(Drop)]
pub struct ByteMap {
    bytes: Vec<u8>,
}

impl Model for ByteMap {
    ghost use Rattle.std.specs.Prelude.{ℕ, List};
    ghost use Rattle.task_script.specs.Maps.{IsByteMap};

    ghost Value = { List ℕ };

    ghost view = { λ m. m.bytes.items };

    ghost invariant = { λ m. IsByteMap m.bytes.items };
}

impl ByteMap {
    ghost use Rattle.std.specs.Prelude.{◌≡◌, ◌≢◌, ◌↔◌, IsTrue, IfOk};
    ghost use Rattle.task_script.specs.Maps.{IsByteMap, mapped_byte, mapped_line, identity_map};

    /// A map of these bytes, for which no memory is taken.
    pub fn new(bytes: Vec<u8>) -> ByteMap
        requires { IsByteMap bytes.items }
        ensures { result ≡ bytes.items }
    {
        ByteMap { bytes }
    }

    /// The map of each byte to itself. Answers `NoMemory` where memory runs out.
    #[tactic(auto, using(crate::proofs::MapLaws::identity_is_map))]
    pub fn identity(alloc: Global) -> Result<ByteMap, NoMemory>
        ensures { IfOk result (λ m. m ≡ identity_map) }
    {
        let bytes = all_bytes(alloc)?;
        Ok(ByteMap { bytes })
    }

    /// What the map makes of a byte.
    #[tactic(auto, using(crate::proofs::MapLaws::no_feed_at))]
    pub fn get(&self, byte: u8) -> u8
        ensures byte { result ≡ mapped_byte self.now byte }
        ensures no_feed { byte ≢ 10 → result ≢ 10 }
    {
        self.bytes[byte as usize]
    }

    /// The line with each byte as the map has it, in the memory that it has.
    #[tactic(auto, using(crate::proofs::MapLaws::line_laws))]
    pub fn map_line(&self, line: Line) -> Line
        ensures { result ≡ mapped_line self.now line }
    {
        let mut bytes = line.into_bytes();
        map_bytes(self.bytes.as_slice(), bytes.as_mut_slice());
        Line::new(bytes)
    }

    /// The bytes of the map.
    pub fn as_slice(&self) -> &[u8]
        ensures bytes { result.now ≡ self.now }
        ensures map { IsByteMap result.now }
    {
        self.bytes.as_slice()
    }

    /// Whether both maps make the same of each byte.
    pub fn equals(&self, other: &ByteMap) -> bool
        ensures { IsTrue result ↔ (self.now ≡ other.now) }
    {
        self.bytes.as_slice() == other.bytes.as_slice()
    }
}

ghost use Rattle.std.specs.Prelude.{◌≡◌, IfOk, map, length};
ghost use Rattle.task_script.specs.Maps.{mapped_byte, identity_map};

// All bytes in their order.
#[tactic(auto, using(crate::proofs::MapLaws::byte_more), unfolding(crate::specs::Maps::identity_map))]
fn all_bytes(alloc: Global) -> Result<Vec<u8>, NoMemory>
    ensures { IfOk result (λ bytes. bytes.items ≡ identity_map) }
{
    let mut bytes = Vec::with_capacity(alloc, 256)?;
    for byte in 0..256u16 {
        bytes.push(byte as u8)?;
    }
    Ok(bytes)
}

// Each byte as a map of all bytes has it.
#[tactic(auto, using(crate::proofs::MapLaws::one_more))]
fn map_bytes(table: &[u8], bytes: &mut [u8])
    requires { length table.now ≡ 256 }
    ensures { bytes.new ≡ map (mapped_byte table.now) bytes.old }
{
    for byte in bytes.iter_mut() {
        *byte = table[*byte as usize];
    }
}
