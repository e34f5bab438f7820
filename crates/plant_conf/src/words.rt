//! What the texts of a configuration say: bits, wires, kinds of blocks, rules and bytes.
ghost use Rattle.std.specs.Prelude.{◌≡◌, [], IsTrue, IfSome, MatchOption};
ghost use Rattle.std.specs.List.{after_first, before_first};
ghost use Rattle.hex.specs.Hex.{decode_of};
ghost use Rattle.param_load.specs.AppRule.{is_acceptable};
ghost use Rattle.schedule_file.specs.Field.{number_said};
ghost use Rattle.plant_conf.specs.Forms.{is_dot, number_after, bit_said, wire_said, block_kind_said, rule_said, at_most};

use failsafe_io::Bit;
use fb_lib::BlockKind;
use fb_net::Wire;
use memchr::memchr;
use param_load::{AppBytes, AppRule};
use schedule_file::{find_word, read_number};

/// The most bytes of application parameters.
const MOST_APPLICATION: usize = 512;

/// The kinds of blocks.
const KINDS: [(&[u8], BlockKind); 10] = [
    (b"const0", BlockKind::Const0),
    (b"const1", BlockKind::Const1),
    (b"and", BlockKind::And),
    (b"or", BlockKind::Or),
    (b"latch", BlockKind::Latch),
    (b"estop", BlockKind::Estop),
    (b"twohand", BlockKind::TwoHand),
    (b"ondelay", BlockKind::OnDelay),
    (b"offdelay", BlockKind::OffDelay),
    (b"feedback", BlockKind::Feedback),
];

/// A number of 16 bits, in digits with no sign and no leading zero.
fn number(text: &[u8]) -> Option<u16>
    ensures { result ≡ number_said 65535 text.now }
{
    Some(read_number(text, u64::from(u16::MAX))? as u16)
}

/// The number of 16 bits that follows these bytes.
fn number_after(text: &[u8], prefix: &[u8]) -> Option<u16>
    ensures { result ≡ number_after prefix.now text.now }
{
    number(text.strip_prefix(prefix)?)
}

/// The parts before and after the first dot.
fn cut(text: &[u8]) -> Option<(&[u8], &[u8])>
    ensures { MatchOption result (after_first is_dot text.now ≡ [])
        (λ parts. (parts.0.now ≡ before_first is_dot text.now) × (parts.1.now ≡ after_first is_dot text.now)) }
{
    match memchr(b'.', text) {
        Some(at) => Some((&text[..at], &text[at + 1..])),
        None => None,
    }
}

/// A letter, and then `<k>.<bit>`: a connection, and a bit of its image.
pub(crate) fn bit(text: &[u8], letter: &[u8]) -> Option<Bit>
    ensures { result ≡ bit_said letter.now text.now }
{
    let (link, bit) = cut(text)?;
    let bit = number(bit)?;
    Some(Bit {
        link: number_after(link, letter)?,
        bit,
    })
}

/// `i<k>.<bit>`, an input bit, or `b<number>`, a block.
pub(crate) fn wire(text: &[u8]) -> Option<Wire>
    ensures { result ≡ wire_said text.now }
{
    if let Some(input) = bit(text, b"i") {
        return Some(Wire::Input(input));
    }
    Some(Wire::Block(number_after(text, b"b")?))
}

/// The kind of a block.
pub(crate) fn kind(text: &[u8]) -> Option<BlockKind>
    ensures { result ≡ block_kind_said text.now }
{
    find_word(&KINDS, text)
}

/// What a rule says of application parameters: `any` bytes of the number of these, or `exact`ly these.
pub(crate) fn rule(text: &[u8], app: &AppBytes) -> Option<AppRule>
    ensures value { result ≡ rule_said app.now text.now }
    ensures acceptable { IfSome result (λ r. IsTrue (is_acceptable r)) }
{
    if text == b"any".as_slice() {
        Some(AppRule::Any(app.len() as u16))
    } else if text == b"exact".as_slice() {
        Some(AppRule::Exact(app.copy()))
    } else {
        None
    }
}

/// At most 512 bytes in hexadecimal, or none.
#[tactic(auto, using(crate::proofs::Hex::too_long))]
pub(crate) fn hex_bytes(text: &[u8]) -> Option<AppBytes>
    ensures { result ≡ at_most 512 (decode_of text.now) }
{
    let len = text.len() / 2;
    if len > MOST_APPLICATION {
        return None;
    }
    let mut bytes = AppBytes::zeros(len);
    hex::decode_to_slice(text, bytes.bytes_mut()).ok()?;
    Some(bytes)
}
