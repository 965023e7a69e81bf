// Runs a fixed list of the oracle's answers through the exported routines, and compares number, entries and output byte
// for byte, every field of a reason, and each byte that is read. The list is standard input; oracle/examples/replay_list.rs
// makes it. It has five video memories of 131,136 bytes, 64 more than a draw takes so that too much can be lent, and then
// records up to its end. A record is a head of 17 words and the buffers that follow it. A word is four bytes, the low one
// first. The words of a head:
//   0         the call: 0 is a draw, 1 a step, 2 a reset, 3 the reason of a column, 4 a byte read, 5 a byte store, 6 a
//             halfword store
//   1         its group, in the order in which tally.rt prints them
//   2         the number that the oracle returned
//   3         which buffers follow, a bit for each
//   4, 5      reading and line
//   6 to 9    the reference numbers; of a step pb2, pd2, pb3, pd3; of a read or a store its address, the byte that the
//             oracle read or the value to store, and DISPCNT's low byte
//   10        where in the list its video memory starts
//   11 to 16  how much is lent of video memory, palette, OAM, registers, entries (of a step references) and output; for a
//             reason 16 is the column
// The buffers, each as long as it is lent: palette, OAM and registers, which follow together; entries before the call;
// entries after it; output after it. One that doesn't follow is as the record before left it, and after the call as before
// it. A step is followed by 32 bytes that hold its references before, and 32 after. A reason's ten fields behind its number
// come last, a word each, in place of what a draw leaves. Reads and stores are lent the first of the video memories, and a
// palette and an OAM that start as zeros and that no draw sees; what they store stays there for the records behind.

#![tactic(auto)]

mod bus;
mod calls;
mod compare;
mod list;
mod tally;

use bus::Bus;
use calls::{Draws, replay_step};
use compare::Fault;
use list::{Call, Head, IMAGES_SIZE, read_whole};
use std::io;
use std::io::Read;
use tally::Tally;

// No list has as many records; a loop has to end.
const MOST_RECORDS: u32 = 1_000_000;

// What records are called with.
#[derive(Drop)]
struct Replay {
    images: [u8; IMAGES_SIZE],
    bus: Bus,
    draws: Draws,
}

impl Replay {
    fn new() -> Replay {
        Replay {
            images: [0; IMAGES_SIZE],
            bus: Bus::new(),
            draws: Draws::new(),
        }
    }

    // The call of a record.
    fn replay(&mut self, input: &mut impl Read, head: &Head) -> Result<(), Fault> {
        match head.call() {
            Call::Draw | Call::Reset => self.draws.replay_row(input, head, &self.images),
            Call::Step => replay_step(input, head),
            Call::Explain => self.draws.replay_reason(input, head, &self.images),
            Call::Read8 => Ok(self.bus.replay_read(head, &self.images)?),
            Call::Store8 => Ok(self.bus.replay_store8(head, &mut self.images)?),
            Call::Store16 => Ok(self.bus.replay_store16(head, &mut self.images)?),
        }
    }

    // The records replayed and counted, up to the first that differs.
    fn replay_all(&mut self, rt: &impl Print, input: &mut impl Read) -> io::Result<()> {
        let mut tally = Tally::new();
        for k in 0..MOST_RECORDS {
            let Some(head) = Head::read(input)? else {
                break;
            };
            match self.replay(input, &head) {
                Ok(()) => tally.count_record(&head, &self.draws.memory),
                Err(Fault::Differs(difference)) => return println!(rt; "call {k}: {difference}"),
                Err(Fault::Cut) => return println!(rt; "call {k}: the list ends in record {k}"),
                Err(Fault::Input(e)) => return Err(e),
            }
        }
        print!(rt; "{tally}")
    }
}

fn main(rt: HostRuntime) -> io::Result<()> {
    let mut replay = Replay::new();
    let mut input = rt.stdin();
    if read_whole(&mut input, &mut replay.images)?.is_none() {
        return println!(rt; "the list ends in its video memories");
    }
    replay.replay_all(&rt, &mut input)
}
