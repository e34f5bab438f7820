//! How the lines of a plant's script are parsed.
ghost use Rattle.std.specs.Prelude.{◌≡◌, ◌≤◌, map, length};
ghost use Rattle.plant_model.specs.Fits.{lengths_in};
ghost use Rattle.plant_run.specs.Script.{untitled};

use crate::script_line::read_plant_event;
use file_run::Format;
use fsoe_base::Lengths;
use plant_conf::LinkConf;
use plant_model::PlantLine;
use schedule_file::LineCause;
use std::marker::Model;

/// How the lines of a plant's script are parsed.
pub struct ScriptFormat;

/// The header of a script: the lengths of at most 64 connections, which are known before, and whether its one line was
/// read.
#[derive(Drop)]
pub struct ScriptHeader {
    all: [Lengths; 64],
    count: usize,
    titled: bool,
}

impl Model for ScriptHeader {
    ghost use Rattle.std.specs.Prelude.{◌≤◌, take};
    ghost use Rattle.plant_run.specs.Script.{ScriptHeading};

    ghost Value = { ScriptHeading };

    ghost view = { λ h. record { lengths = take h.count h.all; titled = h.titled } };

    ghost invariant = { λ h. h.count ≤ 64 };
}

impl ScriptHeader {
    /// A header before its line, where a plant has these connections. The places after them hold some lengths, which
    /// contracts don't see.
    pub(crate) fn new(links: &[LinkConf]) -> ScriptHeader
        requires { length links.now ≤ 64 }
        ensures { result ≡ untitled (map lengths_in links.now) }
    {
        let Ok(any) = Lengths::new(2, 2) else {
            unreachable!()
        };
        let mut all = [any; 64];
        for i in 0..links.len() {
            all[i] = *links[i].slave.lengths();
        }
        ScriptHeader {
            all,
            count: links.len(),
            titled: false,
        }
    }

    /// The lengths of the connections, in their order.
    fn lengths(&self) -> &[Lengths]
        ensures { result.now ≡ self.now.lengths }
    {
        &self.all[..self.count]
    }
}

impl Format for ScriptFormat {
    ghost use Rattle.std.specs.Prelude.{List, false, if◌then◌else◌};
    ghost use Rattle.fsoe_base.specs.declared.lengths.Lengths.{Lengths};
    ghost use Rattle.plant_run.specs.Script.{script_format};
    ghost use Rattle.plant_run.specs.ScriptLine.{plant_line};

    type Header = ScriptHeader;

    type Grammar = ScriptHeader;

    type Line = PlantLine;

    type Event = PlantLine;

    ghost Kind = { List Lengths };

    ghost format = { script_format };

    ghost kind = { λ h. h.lengths };

    ghost lines_left = { λ h. if h.titled then 0 else 1 };

    ghost says = { λ h. plant_line h.lengths };

    fn line(header: &mut ScriptHeader, line: &[u8]) -> Result<bool, LineCause> {
        if header.titled || line != b"fsoe 1 plant".as_slice() {
            return Err(LineCause::Header);
        }
        header.titled = true;
        Ok(true)
    }

    fn grammar(header: &ScriptHeader) -> ScriptHeader {
        ScriptHeader {
            all: header.all,
            count: header.count,
            titled: header.titled,
        }
    }

    fn end() -> PlantLine {
        PlantLine::End
    }

    fn read(header: &ScriptHeader, line: &[u8], said: &mut PlantLine) -> Result<(), LineCause> {
        match read_plant_event(line, header.lengths()) {
            Ok(line) => {
                *said = line;
                Ok(())
            }
            Err(cause) => Err(cause),
        }
    }

    fn event(line: &PlantLine) -> Option<&PlantLine> {
        match line {
            PlantLine::End => None,
            _ => Some(line),
        }
    }
}
