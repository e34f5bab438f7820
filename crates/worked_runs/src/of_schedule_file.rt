use schedule_file::{LineBuf, Maker, write_event};

/// The first events of number 2656, among which each kind is that a number makes.
const OF_2656: &str =
    "tm, ds -1, dm -1, ds -1, dm -1, dm -1, ds -1, ds -2, dm -1, ts, dm -1, dm -1, ds -1, ds -1, tm, dm -1, dm -1, dm -1, ts, pm cb4d, ds -1, ps 18a9, dm -1, hs 0, dm -1, ds -1, as -1 3 08, ds -1, dm -1, ts, tm, dm -1, dm -1, hm 1, ps a66a, ds -1, nm 2500, ts, ps 4554, dm -2, ds -1, dm -1, dm -1, zs, zm, ds -1, am -1 0 04";

#[test]
fn makes_and_writes_the_events_of_a_number(rt: HostRuntime) {
    let mut maker = Maker::new(2656);
    let mut out = LineBuf::new();
    for line in OF_2656.split(", ") {
        write_event(&maker.next(), &mut out);
        assert!(rt; out.bytes() == line.as_bytes(), "{line}");
    }
}
