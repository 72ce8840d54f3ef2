//! The bytes of an instruction. No group is fetched twice in a step.
ghost use Rattle.std.specs.Prelude.{◌≡◌, false, ◌+◌, ◌*◌, ◌%◌, ◌^◌};
ghost use Rattle.m386_base.specs.Phrase.{Performs};
ghost use Rattle.m386_step.specs.Fetch.{byte_phrase, group_phrase, byte_of_value, first_reader};

use m386_base::ask::{Ask, Role, Space};
use m386_base::bus::{Bus, cycle_or_fault};
use m386_base::exception::general_protection;
use m386_base::fault::Break;
use m386_base::segments::CS;
use m386_desc::offsets::limit;
use m386_state::proc::Proc;

/// Where the next byte of the instruction stands, and the group that was fetched last in this step.
#[derive(Clone, Copy, Debug, PartialEq, Eq)]
pub struct Reader {
    /// The linear address of the first byte of CS.
    pub base: u32,
    /// The last offset in CS.
    pub limit: u32,
    /// The offset in CS of the next byte.
    pub at: u32,
    /// Whether a group was fetched in this step.
    pub fetched: bool,
    /// The address of the group that was fetched last.
    pub group: u32,
    /// Its four bytes.
    pub value: u32,
}

/// A reader that begins at the instruction at EIP.
pub fn reader_at(p: &Proc) -> Reader
    ensures { result ≡ first_reader p.now }
{
    let code = p.segs[CS as usize].desc;
    Reader {
        base: code.base,
        limit: limit(&code),
        at: p.eip,
        fetched: false,
        group: 0,
        value: 0,
    }
}

/// Byte `at % 4` of a group.
fn byte_at(value: u32, at: u32) -> u8
    ensures { result ≡ byte_of_value value at }
{
    (value >> (8 * (at % 4)) & 0xff) as u8
}

/// The next byte, inside the limit. Its group is fetched where it isn't the one that was fetched last. Offsets go on at 0
/// past FFFFFFFFh.
#[tactic(auto, using(m386_base::proofs::Phrases::calls), unfolding(crate::specs::Fetch::group_phrase))]
fn byte_of_group<B: Bus>(reader: &mut Reader, bus: &mut B) -> Result<u8, Break>
    requires free { (B.view bus.old).kept ≡ false }
    ensures cycles { Performs (group_phrase reader.old) (B.view bus.old) (B.view bus.new) (λ byte. (byte, reader.new)) result }
    ensures free { (B.view bus.new).kept ≡ false }
{
    let linear = reader.base.wrapping_add(reader.at);
    let group = linear - linear % 4;
    if !reader.fetched || reader.group != group {
        let value = cycle_or_fault(
            bus,
            Ask {
                space: Space::Memory,
                write: false,
                joined: false,
                role: Role::Fetch,
                part: 0,
                addr: group,
                enables: 15,
                value: 0,
            },
            false,
        )?;
        *reader = Reader {
            fetched: true,
            group,
            value,
            ..*reader
        };
    }
    let byte = byte_at(reader.value, linear);
    reader.at = reader.at.wrapping_add(1);
    Ok(byte)
}

/// The next byte. #GP(0), with no cycle, exactly where its offset is past the limit of CS.
#[tactic(auto, using(m386_base::proofs::Phrases::calls), unfolding(crate::specs::Fetch::byte_phrase))]
pub fn next_byte<B: Bus>(reader: &mut Reader, bus: &mut B) -> Result<u8, Break>
    requires free { (B.view bus.old).kept ≡ false }
    ensures cycles { Performs (byte_phrase reader.old) (B.view bus.old) (B.view bus.new) (λ byte. (byte, reader.new)) result }
    ensures free { (B.view bus.new).kept ≡ false }
{
    if reader.at > reader.limit {
        return Err(Break::Fault(general_protection()));
    }
    byte_of_group(reader, bus)
}
