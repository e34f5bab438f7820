//! How the lines of a file of images are parsed.

use crate::event::ImageEvent;
use crate::event_line::{SlotEnd, read_image_line};
use crate::header::ImageHeader;
use crate::said::Said;
use crate::spans::MOST_SLOTS;
use arrayvec::ArrayVec;
use file_run::Format;
use schedule_file::LineCause;

/// How the lines of an input of images are parsed.
pub struct ImageFormat;

/// How the lines after the header of images are parsed: by the size of the input image, and by the ends of the slots.
#[derive(Drop)]
pub struct ImageGrammar {
    size_in: u16,
    ends: ArrayVec<SlotEnd, MOST_SLOTS>,
}

impl Format for ImageFormat {
    ghost use Rattle.std.specs.Prelude.{false};
    ghost use Rattle.image_file.specs.EventLine.{image_line};
    ghost use Rattle.image_file.specs.LinesLeft.{image_lines_left};
    ghost use Rattle.image_file.specs.Input.{image_format};

    type Header = ImageHeader;

    type Grammar = ImageGrammar;

    type Line = Said;

    type Event = ImageEvent;

    ghost Kind = { Unit {0} };

    ghost format = { λ kind. image_format };

    ghost kind = { λ h. tt };

    ghost lines_left = { image_lines_left };

    ghost says = { λ grammar text. image_line grammar.size_in grammar.ends.items text };

    fn line(header: &mut ImageHeader, line: &[u8]) -> Result<bool, LineCause> {
        header.line(line)
    }

    fn grammar(header: &ImageHeader) -> ImageGrammar {
        let (size_in, _) = header.sizes();
        ImageGrammar {
            size_in,
            ends: header.ends(),
        }
    }

    fn end() -> Said {
        Said::end()
    }

    fn read(grammar: &ImageGrammar, line: &[u8], said: &mut Said) -> Result<(), LineCause> {
        read_image_line(line, grammar.size_in, grammar.ends.as_slice(), said)
    }

    fn event(line: &Said) -> Option<&ImageEvent> {
        line.event()
    }
}
