ghost use Rattle.std.specs.Prelude.{◌≡◌, ◌+◌, min, false, [], ◌∷◌, get_or};
ghost use Rattle.fb_net.specs.Mirror.{mirror_images};

use entry_text::push_entry;
use failsafe_io::{Application, Bit};
use fb_net::{AppKind, KindOf, Mirror};
use fsoe_base::{Did, FrameBuf, Image, Lengths};
use fsoe_io::LineText;
use multi_master::{MultiMaster, NewFault};
use param_load::{AppBytes, MasterSettings};
use std::alloc::Global;
use std::test::Fail;

/// Reset with code 0, as a master and as a slave sends it.
const RESET: [u8; 7] = [0x2A, 0x00, 0x00, 0xC4, 0x2D, 0x00, 0x00];

/// Settings of connections with these ids, of lengths 2 and 2, with a watchdog of 5 ticks and nonce 1; the address is
/// the id and 10.
fn settings(alloc: Global, conns: &[u16]) -> Result<Vec<MasterSettings>, Fail> {
    let mut settings = Vec::new(alloc);
    for conn in conns {
        let lengths = Lengths::new(2, 2)?;
        let address = conn.saturating_add(10);
        settings.push(MasterSettings::new(lengths, *conn, address, 5, AppBytes::new(), 1)?)?;
    }
    Ok(settings)
}

/// The master of connections with these ids, or why there is none.
fn master_of<A: Application>(
    alloc: Global,
    conns: &[u16],
    app: A,
) -> Result<Result<MultiMaster<A>, NewFault>, Fail> {
    Ok(MultiMaster::new(settings(alloc, conns)?, app))
}

/// Whether this is what a report says of a connection that did this and sent this frame.
fn tells<A: Application>(
    multi: &MultiMaster<A>,
    link: u16,
    did: &Did,
    out: &FrameBuf,
    line: &str,
) -> bool {
    let mut text = LineText::new();
    if link == 0 || link > multi.links() {
        return false;
    }
    push_entry(
        did,
        multi.state(link),
        multi.outputs(link),
        out.bytes(),
        &mut text,
    );
    text.bytes() == line.as_bytes()
}

/// Whether a tick of two connections is told so.
fn ticks<A: Application>(multi: &mut MultiMaster<A>, lines: [&str; 2]) -> bool {
    let mut outs = [FrameBuf::new(), FrameBuf::new()];
    let mut dids = [Did::nothing(), Did::nothing()];
    if multi.links() != 2 {
        return false;
    }
    multi.tick(&mut outs, &mut dids);
    tells(multi, 1, &dids[0], &outs[0], lines[0]) && tells(multi, 2, &dids[1], &outs[1], lines[1])
}

/// Whether a frame that is delivered to a connection is told so.
fn delivers<A: Application>(
    multi: &mut MultiMaster<A>,
    link: u16,
    frame: &[u8],
    line: &str,
) -> bool {
    let mut out = FrameBuf::new();
    if link == 0 || link > multi.links() {
        return false;
    }
    let did = multi.deliver(link, frame, &mut out);
    tells(multi, link, &did, &out, line)
}

const RESET_SENT: &str = "again Reset 0000 > 2a0000c42d0000";

const SESSION_SENT: &str = "took Reset Session 0000 > 4e0100123e0000";

const DROPPED: &str = "drop Length Reset 0000";

#[test]
fn a_connection_leaves_its_neighbour_alone(rt: HostRuntime) -> Result<(), Fail> {
    let made = master_of(rt.alloc(), &[1, 2], Mirror)?;
    let mut multi = made.ok().ok_or("refused")?;
    assert!(rt; ticks(&mut multi, [RESET_SENT, RESET_SENT]));
    assert!(rt; delivers(&mut multi, 1, &RESET, SESSION_SENT));
    assert!(rt; delivers(&mut multi, 2, &[0], DROPPED));
    for _ in 0..4 {
        assert!(rt; ticks(&mut multi, ["quiet Session 0000", "quiet Reset 0000"]));
    }
    let expired = "reset found 05 Reset 0000 > 2a050025ae0000";
    assert!(rt; ticks(&mut multi, [expired, RESET_SENT]));
    Ok(())
}

/// The fault of settings with so many connection ids, from 1 on, and after 64 from 1 again.
fn fault_of_many(alloc: Global, count: u16) -> Result<Option<NewFault>, Fail> {
    let mut conns = Vec::new(alloc);
    for place in 0..count {
        conns.push(place % 64 + 1)?;
    }
    fault_of(alloc, conns.as_slice())
}

fn fault_of(alloc: Global, conns: &[u16]) -> Result<Option<NewFault>, Fail> {
    Ok(master_of(alloc, conns, Mirror)?.err())
}

#[test]
fn settings_of_many_connections_are_refused_in_order(rt: HostRuntime) -> Result<(), Fail> {
    let same = |a, b| Some(NewFault::SameConn { a, b });
    assert_eq!(rt; fault_of(rt.alloc(), &[1, 2, 1])?, same(1, 3));
    assert_eq!(rt; fault_of(rt.alloc(), &[1, 2, 2, 1])?, same(1, 4));
    for (count, want) in [(0, None), (64, None), (65, Some(NewFault::TooMany))] {
        assert_eq!(rt; fault_of_many(rt.alloc(), count)?, want, "{count}");
    }
    Ok(())
}

/// The number of a cycle after so many, at most 255.
fn next(cycles: u8) -> u8
    ensures { result ≡ min (cycles + 1) 255 }
{
    if cycles < 255 { cycles + 1 } else { 255 }
}

/// An image of one byte.
fn image(byte: u8) -> Image
    ensures { result ≡ byte ∷ [] }
{
    let mut image = Image::new();
    image.push(byte);
    image
}

/// Answers the number of its cycles in the first byte of the outputs of two connections.
#[derive(Drop)]
struct Counts {
    cycles: u8,
}

impl Application for Counts {
    ghost holds = { λ a. a.cycles ∷ [] };

    ghost rule = { λ _ held _ _ lens. let n = min (get_or held 0 0 + 1) 255 in
        record { outputs = mirror_images ((n ∷ []) ∷ (n ∷ []) ∷ []) lens; holds = n ∷ [] } };

    ghost guards = { λ _ _ _. false };

    fn cycle(&mut self, ticked: bool, _inputs: &[Image], outputs: &mut [Image]) {
        self.cycles = next(self.cycles);
        let counts = [image(self.cycles), image(self.cycles)];
        Mirror.cycle(ticked, &counts, outputs);
    }

    fn guards(&self, _out: Bit, _inp: Bit) -> bool {
        false
    }
}

/// A new one, handed in within a box.
fn counting(alloc: Global) -> Result<AppKind, Fail> {
    let app: Box<dyn Application> = Box::new(alloc, Counts { cycles: 0 })?;
    Ok(KindOf::Handed(app))
}

/// Whether both connections offer this byte and a zero, and these are told as changed.
fn offers(multi: &MultiMaster<AppKind>, byte: u8, changed: &[u16]) -> bool {
    if multi.links() != 2 || multi.changed() != changed {
        return false;
    }
    multi.offer(1) == [byte, 0].as_slice() && multi.offer(2) == [byte, 0].as_slice()
}

/// Whether both connections offer the answers to the first cycle of another application.
fn begins_anew(multi: &mut MultiMaster<AppKind>, app: AppKind) -> bool {
    multi.change_app(app);
    offers(multi, 1, &[1, 2])
}

#[test]
fn another_application_begins_anew(rt: HostRuntime) -> Result<(), Fail> {
    let made = master_of(rt.alloc(), &[1, 2], counting(rt.alloc())?)?;
    let mut multi = made.ok().ok_or("refused")?;
    assert!(rt; offers(&multi, 0, &[]));
    assert!(rt; ticks(&mut multi, [RESET_SENT, RESET_SENT]));
    assert!(rt; delivers(&mut multi, 1, &RESET, SESSION_SENT));
    assert!(rt; offers(&multi, 2, &[1, 2]));
    // A frame that is dropped runs no cycle.
    assert!(rt; delivers(&mut multi, 2, &[0], DROPPED));
    assert!(rt; offers(&multi, 2, &[]));
    assert!(rt; begins_anew(&mut multi, counting(rt.alloc())?));
    Ok(())
}
