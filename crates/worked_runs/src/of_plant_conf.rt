use plant_conf::{LinkConf, PlantConf, read_conf};

/// Each key of a plant and of a connection once.
const WHOLE: &[u8] = b"[plant]
app = \"mine\"
channel = \"wire\"
seed = 77
[[connection]]
id = 21
address = 22
watchdog = 23
master_length = 24
slave_length = 26
app = \"0a0B\"
rule = \"exact\"
slave_address = 32
hand = 33
most = 34
master_nonce = 35
slave_nonce = 36
";

/// Whether a connection has the numbers that stand here.
fn has_its_numbers(link: &LinkConf) -> bool {
    let LinkConf { master, slave } = link;
    [master.conn(), master.address(), master.watchdog()] == [21, 22, 23]
        && [master.own_len(), slave.own_len()] == [24, 26]
        && [slave.address(), slave.hand(), slave.most()] == [32, 33, 34]
        && [master.nonce(), slave.nonce()] == [35, 36]
}

/// Whether a connection has the application parameters 0a 0b, and its slave allows no others.
fn has_its_parameters(link: &LinkConf) -> bool {
    let rule = link.slave.rule();
    link.master.app().bytes() == [10, 11].as_slice()
        && rule.allows(&[10, 11])
        && !rule.allows(&[10, 12])
}

/// Whether these names, the seed and one connection were read.
fn is_whole(conf: &PlantConf) -> bool {
    let names = conf.app() == "mine" && conf.channel() == "wire";
    match conf.links() {
        [link] => names && conf.seed() == 77 && has_its_numbers(link) && has_its_parameters(link),
        _ => false,
    }
}

#[test]
fn every_key_is_taken_as_it_stands(rt: HostRuntime) {
    let well = match read_conf(rt.alloc(), WHOLE) {
        Ok(conf) => is_whole(&conf),
        Err(_) => false,
    };
    assert!(rt; well);
}
