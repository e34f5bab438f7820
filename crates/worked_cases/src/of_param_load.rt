ghost use Rattle.std.specs.Prelude.{◌≡◌, IsTrue};
ghost use Rattle.param_load.specs.AppRule.{is_acceptable};

use fsoe_base::Code;
use param_load::{AppBytes, AppRule, Profile, Progress, Upload};

/// What the last of these frames gives to an upload, or the first code; Whole also where frames are left.
fn outcome(upload: &mut Upload, frames: &[[u8; 2]]) -> Result<Progress, Code>
    requires { upload.old.pieces.piece ≡ 2 }
    ensures piece { upload.new.pieces.piece ≡ 2 }
    ensures expected { upload.new.pieces.expected ≡ upload.old.pieces.expected }
{
    let mut last = Progress::More;
    for frame in frames {
        if upload.is_whole() {
            break;
        }
        last = upload.take(frame)?;
    }
    Ok(last)
}

/// The rule for one byte from 10h to 20h.
fn one_byte() -> AppRule
    ensures { IsTrue (is_acceptable result) }
{
    let mut low = AppBytes::new();
    low.push(0x10);
    let mut high = AppBytes::new();
    high.push(0x20);
    AppRule::Ranges(low, high)
}

fn parameters(profile: Profile, frames: &[[u8; 2]]) -> Result<Progress, Code> {
    let mut upload = Upload::parameter(2, 1000, &one_byte(), profile);
    outcome(&mut upload, frames)
}

/// A profile, the frames of a Parameter upload, and what the last of them gives.
type Row = (Profile, &'static [[u8; 2]], Result<Progress, Code>);

const WHOLE: Result<Progress, Code> = Ok(Progress::Whole);

const MORE: Result<Progress, Code> = Ok(Progress::More);

const PARAMETERS: [Row; 14] = [
    (Profile::One, &[[2, 0], [100, 0], [1, 0], [0x20, 0]], WHOLE),
    (Profile::One, &[[2, 0], [100, 0], [1, 0]], MORE),
    (
        Profile::One,
        &[[2, 0], [100, 0], [1, 0], [0x30, 0]],
        Err(Code::WRONG_APPLICATION),
    ),
    (
        Profile::One,
        &[[2, 0], [100, 0], [1, 0], [0x0F, 0]],
        Err(Code::WRONG_APPLICATION),
    ),
    (
        Profile::One,
        &[[2, 0], [100, 0], [1, 0], [0x20, 1]],
        Err(Code::WRONG_DATA),
    ),
    (
        Profile::One,
        &[[2, 0], [100, 0], [2, 0]],
        Err(Code::WRONG_APPLICATION_LENGTH),
    ),
    (Profile::One, &[[2, 0], [0xE8, 3], [1, 0]], MORE),
    (
        Profile::One,
        &[[2, 0], [0xE9, 3]],
        Err(Code::WRONG_COMMUNICATION),
    ),
    (
        Profile::One,
        &[[2, 0], [0, 0]],
        Err(Code::WRONG_COMMUNICATION),
    ),
    (
        Profile::One,
        &[[4, 0]],
        Err(Code::WRONG_COMMUNICATION_LENGTH),
    ),
    (
        Profile::One,
        &[[2, 1]],
        Err(Code::WRONG_COMMUNICATION_LENGTH),
    ),
    (
        Profile::Two(7),
        &[[4, 0], [100, 0], [7, 0], [1, 0], [0x10, 0]],
        WHOLE,
    ),
    (
        Profile::Two(7),
        &[[4, 0], [100, 0], [8, 0]],
        Err(Code::WRONG_COMMUNICATION),
    ),
    (
        Profile::Two(7),
        &[[2, 0]],
        Err(Code::WRONG_COMMUNICATION_LENGTH),
    ),
];

#[test]
fn parameters_are_tested_field_by_field(rt: HostRuntime) {
    for (profile, frames, want) in PARAMETERS {
        assert_eq!(rt; parameters(profile, frames), want, "after {frames:?}");
    }
}
