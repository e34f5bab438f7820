//! The handle of a controller.
ghost use Rattle.std.specs.Prelude.{◌≡◌, ◌≢◌, false, true, Some};
ghost use Rattle.build_text.specs.Copy.{build_answer, build_copied};
ghost use Rattle.c_values.specs.Place.{served};
ghost use Rattle.controller_c.specs.Handle.{IsSoundController, open_answer};
ghost use Rattle.controller_c.specs.Making.{empty_controller};
ghost use Rattle.controller_c.specs.Version.{version};

use crate::controller_place::ControllerPlace;
use crate::controller_room::ControllerRoom;
use crate::most::GpMost;
use crate::numbers::NO_MEMORY;
use build_text::copy_build;
use c_values::numbers::{BAD_LENGTH, BUSY, NO_END, NO_ROOM, OK};
use region::Memory;
use std::mem::{align_of, size_of};

/// The handle of a controller: where its memory lies, and whether a controller is there.
#[repr(C)]
pub struct GpController {
    pub place: ControllerPlace,
    pub live: bool,
}

/// The version of header and archive, by which a program sees that they belong together.
#[unsafe(no_mangle)]
pub extern "C" fn gp_controller_version() -> u32
    ensures { result ≡ version }
{
    1
}

/// Writes the text that names the sources and the toolchain that the archive was made of, to as many bytes.
#[unsafe(no_mangle)]
pub extern "C" fn gp_controller_build(text: &mut [u8]) -> u8
    ensures answer { result ≡ build_answer OK BAD_LENGTH text.old }
    ensures copied { text.new ≡ build_copied text.old }
{
    if copy_build(text) { OK } else { BAD_LENGTH }
}

/// The bytes of memory that a controller takes, besides the region in which its connections and blocks lie.
#[unsafe(no_mangle)]
pub extern "C" fn gp_controller_size() -> usize
    ensures { result ≡ 1160 }
{
    size_of::<ControllerRoom>()
}

/// The alignment of that memory.
#[unsafe(no_mangle)]
pub extern "C" fn gp_controller_align() -> usize
    ensures { result ≡ 8 }
{
    align_of::<ControllerRoom>()
}

/// Makes a controller of no connection and no block, which doesn't run, with room in this region for so many. By this
/// contract the region is given for good.
#[unsafe(no_mangle)]
pub extern "C" fn gp_controller_open(
    controller: &mut GpController,
    region: Memory,
    size: usize,
    most: &GpMost,
) -> u8
    requires sound { IsSoundController controller.old }
    requires region { region.size ≡ size }
    ensures sound { IsSoundController controller.new }
    ensures place { controller.new.place.at ≡ controller.old.place.at }
    ensures answer { result ≢ NO_MEMORY → result ≡ open_answer controller.old }
    ensures memory_alone { result ≡ NO_MEMORY → open_answer controller.old ≡ OK }
    ensures live { result ≡ OK → controller.new.live ≡ true }
    ensures made { result ≡ OK → controller.new.place.controller ≡ Some empty_controller }
    ensures refused { result ≢ OK → controller.new ≡ controller.old }
{
    if controller.live {
        return BUSY;
    }
    if controller.place.is_null() {
        return NO_ROOM;
    }
    let Ok(room) = ControllerRoom::within(region, size, most) else {
        return NO_MEMORY;
    };
    controller.place.put(room);
    controller.live = true;
    OK
}

/// Ends the use of the controller. Its memory is the caller's again, and its region isn't used any more.
#[unsafe(no_mangle)]
pub extern "C" fn gp_controller_end(controller: &mut GpController) -> u8
    requires { IsSoundController controller.old }
    ensures sound { IsSoundController controller.new }
    ensures over { controller.new.live ≡ false }
    ensures place { controller.new.place.at ≡ controller.old.place.at }
    ensures answer { result ≡ served controller.old.live }
    ensures refused { result ≢ OK → controller.new ≡ controller.old }
{
    if !controller.live {
        return NO_END;
    }
    let _ended = controller.place.take();
    controller.live = false;
    OK
}
