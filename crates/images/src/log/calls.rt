// What can be asked of a log.
ghost use Rattle.std.specs.Prelude.{◌≡◌, ◌<◌, ◌≤◌, length, MatchResult};
ghost use Rattle.images.specs.Rows.{Written};
ghost use Rattle.images.specs.Records.{event_at};
ghost use Rattle.images.specs.Parsed.{count, events, LogOutcome};
ghost use Rattle.std.proofs.Common.{rules};

use crate::declined::Declined;
use crate::log::Log;
use crate::refusal::LogRefusal;
use elements::Event;
use sources::{EDGE_MARGIN, LONGEST, ReadRefusal, Source};

// The bytes of a record: eight of key, four of stamp.
const RECORD_BYTES: usize = 12;

// The bytes of its key; its stamp lies behind them.
const KEY_BYTES: usize = 8;

// A log has one column.
const WIDTH: u32 = 1;

impl Log {
    /// Takes the bytes of a log file for a log; declined, with the bytes given back, where they are
    /// not 1 to 16,384 whole records.
    pub fn parse(bytes: Vec<u8>) -> Result<Log, Declined<LogRefusal>>
        ensures kept { MatchResult result (λ l. l.bytes ≡ bytes) (λ d. d.bytes ≡ bytes) }
        ensures outcome { LogOutcome bytes.items result }
    {
        let count = bytes.len() / RECORD_BYTES;
        if count < 1 || count > LONGEST as usize || bytes.len() % RECORD_BYTES != 0 {
            return Err(Declined {
                bytes,
                refusal: LogRefusal::NotRecords,
            });
        }
        Ok(Log { bytes })
    }

    // The event in a record.
    fn at(&self, row: u32) -> Event
        requires { row < count self.now }
        ensures { result ≡ event_at self.now.bytes.items row }
    {
        let record = &self.bytes.as_slice()[RECORD_BYTES * row as usize..];
        let (key, _) = record.split_first_chunk().unwrap();
        let (stamp, _) = record[KEY_BYTES..].split_first_chunk().unwrap();
        Event {
            key: u64::from_be_bytes(*key),
            stamp: u32::from_be_bytes(*stamp),
        }
    }
}

// Writes an event at each place from `start` on; those before it stay.
fn fill_from(out: &mut [Event], start: usize, event: Event)
    requires { start ≤ length out.old }
    ensures { Written out.old out.new start (length out.old) (λ _. event) }
{
    let (_, rest) = out.split_at_mut(start);
    rest.fill(event);
}

impl Source for Log {
    type Element = Event;

    ghost meaning = { events };

    ghost ranges = { Prim.search rules };

    fn height(&self) -> u32 {
        (self.bytes.len() / RECORD_BYTES) as u32
    }

    fn width(&self) -> u32 {
        WIDTH
    }

    fn margin(&self) -> i32 {
        EDGE_MARGIN
    }

    fn read(&self, row: i32, column: i32) -> Result<Event, ReadRefusal> {
        let (row, _) = self.extent().place(row, column)?;
        Ok(self.at(row))
    }

    fn read_row(&self, row: i32, first: i32, out: &mut [Event]) -> Result<(), ReadRefusal> {
        let row = self.extent().place_row(row, first, out.len())?;
        fill_from(out, 0, self.at(row));
        Ok(())
    }
}
