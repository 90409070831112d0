// The memory of a board and its cache: room for the largest, lent as large as a board says.
ghost use Rattle.std.specs.Prelude.{◌≡◌, ◌≤◌, ◌*◌, ◌/◌, length};
ghost use Rattle.meter_runs.specs.Rooms.{IsEmpty};
ghost use Rattle.board_file.specs.Boards.{Within};

use board_file::board::Board;
use cache::buffers::Buffers;

// Room for the largest board, and for the largest cache.
#[derive(Debug, Drop, PartialEq, Eq)]
pub struct Room {
    pub mem: [u8; 65536],
    pub macs: [u8; 16384],
    pub cache: [u8; 4096],
    pub dir: [u32; 64],
}

impl Room {
    // Room with nothing in it.
    // Kept: no derived Default, since docs/PROMISES.md names it, and its promise `IsEmpty` with the edit room_is_not_empty.
    pub fn empty() -> Room
        ensures { IsEmpty result }
    {
        Room {
            mem: [0; 65536],
            macs: [0; 16384],
            cache: [0; 4096],
            dir: [0; 64],
        }
    }

    // What a board with so many slots has of it.
    pub fn lend(&mut self, b: &Board, slots: usize) -> Buffers<'_>
        requires within { Within b.now }
        requires slots_bound { slots ≤ 64 }
        ensures memory { length result.mem.now ≡ b.now.memory }
        ensures area { length result.macs.now ≡ b.now.memory / 4 }
        ensures cache { length result.cache.now ≡ slots * 64 }
        ensures directory { length result.dir.now ≡ slots }
    {
        let Room {
            mem,
            macs,
            cache,
            dir,
        } = self;
        Buffers {
            mem: &mut mem[..b.memory],
            macs: &mut macs[..b.memory / 4],
            cache: &mut cache[..slots * 64],
            dir: &mut dir[..slots],
        }
    }
}
