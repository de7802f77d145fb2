//! How bytes are carried from one end of a link to the other.
ghost use Rattle.std.specs.Prelude.{◌≡◌, ◌++◌, ◌<◌, ◌≤◌, ℕ, List, [], ◌∷◌, drop, length, take, OnOk};
ghost use Rattle.slink_feed.specs.Listening.{IsLinked, Listening};
ghost use Rattle.slink_feed.specs.Serving.{Serves};
ghost use Rattle.slink_feed.specs.Session.{Fits};
ghost use Rattle.slink_model.specs.Running.{Keeps};
ghost use Rattle.slink_model.specs.World.{Reads, Lists, Numbers, Taking, lists_of, noted, taken};
ghost use Rattle.slink_model.specs.World.{with_client, number_at, with_first, with_one};

use crate::world::Memory;
use slink_feed::{Client, Event, Feed, Session};
use slink_wire::STATIONS;

/// Takes the prefix of a queue away.
pub(crate) fn remove_prefix(queue: &mut Vec<u8>, count: usize)
    requires { count ≤ length queue.old.items }
    ensures { queue.new.items ≡ drop count queue.old.items }
{
    queue.drain(..count);
}

/// Adds bytes to a queue.
pub(crate) fn add_bytes(queue: &mut Vec<u8>, bytes: &[u8]) -> Result<(), Memory>
    ensures { OnOk result (queue.new.items ≡ queue.old.items ++ bytes.now) }
{
    queue.extend_from_slice(bytes).map_err(|_| Memory)
}

/// Adds a record to a list.
fn add_to_list(list: &mut Vec<[u8; 512]>, bytes: &[u8; 512]) -> Result<(), Memory>
    ensures { OnOk result (list.new.items ≡ list.old.items ++ bytes.now ∷ []) }
{
    list.push(*bytes).map_err(|_| Memory)
}

/// Adds a record to those of a station.
pub(crate) fn add_record(
    lists: &mut Vec<Vec<[u8; 512]>>,
    k: usize,
    bytes: &[u8; 512],
) -> Result<(), Memory>
    ensures { OnOk result (lists_of lists.new ≡ with_one (lists_of lists.old) k bytes.now) }
{
    let slots = lists.as_mut_slice();
    if k >= slots.len() {
        return Ok(());
    }
    add_to_list(&mut slots[k], bytes)
}

/// The number of a station, where there is one.
fn number_at(numbers: &[Option<u64>], k: usize) -> Option<u64>
    ensures { result ≡ number_at numbers.now k }
{
    match numbers.get(k) {
        Some(number) => *number,
        None => None,
    }
}

/// Notes a number of a station, unless there is one already.
pub(crate) fn note_first(numbers: &mut [Option<u64>], k: usize, number: Option<u64>)
    ensures { numbers.new ≡ with_first numbers.old k number }
{
    if k < numbers.len() {
        numbers[k] = numbers[k].or(number);
    }
}

/// Gives bytes to a session, and puts its replies after what is on its way to the client.
pub(crate) fn serve_bytes(
    feed: &Feed,
    session: &mut Session,
    bytes: &[u8],
    to_client: &mut Vec<u8>,
) -> Result<(), Memory>
    requires { Fits feed.now session.old.state }
    ensures serves { OnOk result
        (Serves feed.now session.old bytes.now to_client.old.items session.new to_client.new.items) }
    ensures fits { Fits feed.now session.new.state }
{
    let mut start = 0;
    while start < bytes.len() {
        let (used, reply) = session.take(feed, &bytes[start..]);
        start += used;
        add_bytes(to_client, reply.bytes())?;
    }
    Ok(())
}

/// Puts what comes of an event where it belongs.
fn note(
    event: Event,
    first_sent: &[Option<u64>; STATIONS],
    held: &mut Vec<Vec<[u8; 512]>>,
    start: &mut Vec<Option<u64>>,
    to_server: &mut Vec<u8>,
) -> Result<(), Memory>
    ensures { (client : Listening) → OnOk result (taken client held.new start.new to_server.new
        ≡ noted first_sent.now event (taken client held.old start.old to_server.old)) }
{
    match event {
        Event::Say(line) => add_bytes(to_server, line.as_slice()),
        Event::Record(k, _, bytes) => {
            note_first(start.as_mut_slice(), k, number_at(first_sent, k));
            add_record(held, k, &bytes)
        }
        Event::None | Event::End | Event::Refused(_) | Event::Gap { .. } => Ok(()),
        Event::Garbage | Event::Foreign => Ok(()),
    }
}

/// Gives bytes to a client, up to the first event.
fn read_piece(client: &mut Client, bytes: &[u8]) -> (usize, Event)
    requires some { 0 < length bytes.now }
    requires keeps { Keeps client.old }
    ensures reads { (first_sent : Numbers) (held : Lists) (start : Numbers) (to_server rest : List ℕ) (last : Taking)
        → Reads first_sent (noted first_sent result.1 (with_client client.new held start to_server)) rest last
        → Reads first_sent (with_client client.old held start to_server) (take result.0 bytes.now ++ rest) last }
    ensures none { result.0 ≡ 0 → (¬ (IsLinked client.old.talk.stage)) × (client.new ≡ client.old) }
    ensures bound { result.0 ≤ length bytes.now }
    ensures keeps { Keeps client.new }
{
    client.take(bytes)
}

/// Gives bytes to a client, and puts what it reports where it belongs. What is after its end is lost.
pub(crate) fn read_bytes(
    client: &mut Client,
    bytes: &[u8],
    first_sent: &[Option<u64>; STATIONS],
    held: &mut Vec<Vec<[u8; 512]>>,
    start: &mut Vec<Option<u64>>,
    to_server: &mut Vec<u8>,
) -> Result<(), Memory>
    requires keeps { Keeps client.old }
    ensures reads { OnOk result (Reads first_sent.now (taken client.old held.old start.old to_server.old) bytes.now
        (taken client.new held.new start.new to_server.new)) }
    ensures keeps { Keeps client.new }
{
    let mut offset = 0;
    while offset < bytes.len() {
        let (used, event) = read_piece(client, &bytes[offset..]);
        if used == 0 {
            break;
        }
        offset += used;
        note(event, first_sent, held, start, to_server)?;
    }
    Ok(())
}
