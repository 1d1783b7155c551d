//! How a picture looks: its style sheet, and a look for each phase.
ghost use Rattle.std.specs.Prelude.{◌≡◌, ◌++◌, OnOk};
ghost use Rattle.poad_audit.specs.Story.{lines_by};
ghost use Rattle.poad_audit.specs.PictureStyle as drawn;

use crate::picture::phase::Phase;
use held_queue::Hold;
use poa_base::WantMemory;

/// Adds the style sheet, the head of an arrow and the ground.
#[tactic(auto, unfolding(crate::specs::PictureStyle::sheet))]
pub(crate) fn put_sheet(out: &mut Vec<u8>) -> Result<(), WantMemory>
    ensures { OnOk result (out.new.items ≡ out.old.items ++ drawn.sheet) }
{
    put(out, text_rules())?;
    put(out, line_rules())?;
    put(out, head_rule())?;
    put(out, head_frame())?;
    put(out, head_fill())
}

#[tactic(auto, unfolding(crate::specs::PictureStyle::text_rules))]
fn text_rules() -> &'static str
    ensures { result.now ≡ drawn.text_rules }
{
    "<style>\ntext{font-family:sans-serif;font-size:82px;fill:#222}\n.lane{font-weight:bold}\n.tick{fill:#666;text-anchor:middle}\n"
}

#[tactic(auto, unfolding(crate::specs::PictureStyle::line_rules))]
fn line_rules() -> &'static str
    ensures { result.now ≡ drawn.line_rules }
{
    "path{stroke-width:80}\n.grid{stroke:#ddd;stroke-width:5}\n.row{stroke:#eee;stroke-width:5}\n"
}

#[tactic(auto, unfolding(crate::specs::PictureStyle::head_rule))]
fn head_rule() -> &'static str
    ensures { result.now ≡ drawn.head_rule }
{
    ".ended.replying,.ended.pending{marker-end:url(#head)}\n</style>\n"
}

#[tactic(auto, unfolding(crate::specs::PictureStyle::head_frame))]
fn head_frame() -> &'static str
    ensures { result.now ≡ drawn.head_frame }
{
    "<marker id='head' viewBox='0 0 10 10' refX='10' refY='5' markerWidth='70' markerHeight='70' markerUnits='userSpaceOnUse' orient='auto'>"
}

#[tactic(auto, unfolding(crate::specs::PictureStyle::head_fill))]
fn head_fill() -> &'static str
    ensures { result.now ≡ drawn.head_fill }
{
    "<path fill='#2e8b3d' d='M0 0L10 5L0 10z'/></marker>\n<path fill='#fff' d='M0 0H16000V99999999H0z'/>\n"
}

fn put(out: &mut Vec<u8>, text: &str) -> Result<(), WantMemory>
    ensures { OnOk result (out.new.items ≡ out.old.items ++ text.now) }
{
    out.extend_from_slice(text.as_bytes())
}

/// Adds each look, with its words.
#[tactic(auto, unfolding(crate::specs::PictureStyle::legend))]
pub(crate) fn put_legend(out: &mut Vec<u8>) -> Result<(), WantMemory>
    ensures { OnOk result (out.new.items ≡ out.old.items ++ drawn.legend) }
{
    let free = [
        Phase::Waiting,
        Phase::Trying,
        Phase::Bringing,
        Phase::Serving,
        Phase::Running,
        Phase::Closing,
        Phase::Pending,
        Phase::Replying,
    ];
    put_free(out, &free)?;
    let causes = [
        Hold::Manager(0),
        Hold::Trial(0),
        Hold::Turn(0),
        Hold::Main,
        Hold::Id(0),
        Hold::Change(0),
    ];
    put_held(out, &causes)
}

/// Adds the looks of these phases.
fn put_free(out: &mut Vec<u8>, phases: &[Phase]) -> Result<(), WantMemory>
    ensures { OnOk result (out.new.items ≡ out.old.items ++ lines_by drawn.free_look phases.now) }
{
    for phase in phases {
        put_free_look(out, *phase)?;
    }
    Ok(())
}

fn put_free_look(out: &mut Vec<u8>, phase: Phase) -> Result<(), WantMemory>
    ensures { OnOk result (out.new.items ≡ out.old.items ++ drawn.free_look phase) }
{
    put(out, colour_rule(phase))?;
    put(out, free_sample(phase))
}

/// Adds the looks of what these hold.
fn put_held(out: &mut Vec<u8>, causes: &[Hold]) -> Result<(), WantMemory>
    ensures { OnOk result (out.new.items ≡ out.old.items ++ lines_by drawn.held_look causes.now) }
{
    for cause in causes {
        put_held_look(out, *cause)?;
    }
    Ok(())
}

fn put_held_look(out: &mut Vec<u8>, cause: Hold) -> Result<(), WantMemory>
    ensures { OnOk result (out.new.items ≡ out.old.items ++ drawn.held_look cause) }
{
    put(out, hatch_frame(cause))?;
    put(out, hatch_fill(cause))?;
    put(out, hatch_rule(cause))?;
    put(out, held_sample(cause))
}

#[tactic(auto, unfolding(crate::specs::PictureStyle::colour_rule))]
fn colour_rule(phase: Phase) -> &'static str
    ensures { result.now ≡ drawn.colour_rule phase }
{
    match phase {
        Phase::Waiting => "<style>.waiting{stroke:#d8d8d8}</style>\n",
        Phase::Trying => "<style>.trying{stroke:#e6a3d7}</style>\n",
        Phase::Bringing => "<style>.bringing{stroke:#b39ddb}</style>\n",
        Phase::Serving => "<style>.serving{stroke:#90c4f0}</style>\n",
        Phase::Running => "<style>.running{stroke:#1f6fb4}</style>\n",
        Phase::Closing => "<style>.closing{stroke:#26734d}</style>\n",
        Phase::Pending =>
            "<style>.pending{stroke:#2e8b3d;stroke-width:14;stroke-dasharray:20 20}</style>\n",
        Phase::Replying => "<style>.replying{stroke:#2e8b3d;stroke-width:14}</style>\n",
        Phase::Held(_) | Phase::Over => "<style>.over{stroke:none}</style>\n",
    }
}

#[tactic(auto, unfolding(crate::specs::PictureStyle::hatch_rule))]
fn hatch_rule(hold: Hold) -> &'static str
    ensures { result.now ≡ drawn.hatch_rule hold }
{
    match hold {
        Hold::Manager(_) => "<style>.manager{stroke:url(#manager)}</style>\n",
        Hold::Trial(_) => "<style>.trial{stroke:url(#trial)}</style>\n",
        Hold::Turn(_) => "<style>.turn{stroke:url(#turn)}</style>\n",
        Hold::Main => "<style>.main{stroke:url(#main)}</style>\n",
        Hold::Id(_) => "<style>.id{stroke:url(#id)}</style>\n",
        Hold::Change(_) => "<style>.change{stroke:url(#change)}</style>\n",
    }
}

#[tactic(auto, unfolding(crate::specs::PictureStyle::hatch_frame))]
fn hatch_frame(hold: Hold) -> &'static str
    ensures { result.now ≡ drawn.hatch_frame hold }
{
    match hold {
        Hold::Manager(_) => {
            "<pattern id='manager' width='50' height='50' patternUnits='userSpaceOnUse' patternTransform='rotate(45)'>"
        }
        Hold::Trial(_) => {
            "<pattern id='trial' width='50' height='50' patternUnits='userSpaceOnUse' patternTransform='rotate(-45)'>"
        }
        Hold::Turn(_) => "<pattern id='turn' width='40' height='50' patternUnits='userSpaceOnUse'>",
        Hold::Main => "<pattern id='main' width='50' height='40' patternUnits='userSpaceOnUse'>",
        Hold::Id(_) => {
            "<pattern id='id' width='50' height='50' patternUnits='userSpaceOnUse' patternTransform='rotate(45)'>"
        }
        Hold::Change(_) => {
            "<pattern id='change' width='40' height='40' patternUnits='userSpaceOnUse'>"
        }
    }
}

#[tactic(auto, unfolding(crate::specs::PictureStyle::hatch_fill))]
fn hatch_fill(hold: Hold) -> &'static str
    ensures { result.now ≡ drawn.hatch_fill hold }
{
    match hold {
        Hold::Manager(_) => {
            "<path fill='#fde0dc' d='M0 0H50V50H0z'/><path fill='#d32f2f' d='M0 0H20V50H0z'/></pattern>\n"
        }
        Hold::Trial(_) => {
            "<path fill='#fbe4f5' d='M0 0H50V50H0z'/><path fill='#ad1487' d='M0 0H20V50H0z'/></pattern>\n"
        }
        Hold::Turn(_) => {
            "<path fill='#fff0d6' d='M0 0H50V50H0z'/><path fill='#e07b00' d='M0 0H16V50H0z'/></pattern>\n"
        }
        Hold::Main => {
            "<path fill='#efe6e0' d='M0 0H50V50H0z'/><path fill='#7a5548' d='M0 0H50V18H0z'/></pattern>\n"
        }
        Hold::Id(_) => {
            "<path fill='#dff3f1' d='M0 0H50V50H0z'/><path fill='#00796b' d='M0 0H12V50H0zM0 0H50V12H0z'/></pattern>\n"
        }
        Hold::Change(_) => {
            "<path fill='#eef2cf' d='M0 0H50V50H0z'/><path fill='#7a8500' d='M4 4H24V24H4z'/></pattern>\n"
        }
    }
}

#[tactic(auto, unfolding(crate::specs::PictureStyle::free_sample))]
fn free_sample(phase: Phase) -> &'static str
    ensures { result.now ≡ drawn.free_sample phase }
{
    match phase {
        Phase::Waiting => {
            "<path class='waiting' d='M100 300H400'/><text x='450' y='330'>waits for a worker</text>\n"
        }
        Phase::Serving => {
            "<path class='serving' d='M2300 300H2600'/><text x='2650' y='330'>a worker has it</text>\n"
        }
        Phase::Running => {
            "<path class='running' d='M4500 300H4800'/><text x='4850' y='330'>its servant ran</text>\n"
        }
        Phase::Trying => {
            "<path class='trying' d='M6700 300H7000'/><text x='7050' y='330'>the adapter activator is asked</text>\n"
        }
        Phase::Bringing => {
            "<path class='bringing' d='M8900 300H9200'/><text x='9250' y='330'>the servant activator is asked</text>\n"
        }
        Phase::Replying => {
            "<path class='replying ended' d='M11100 300H11400'/><text x='11450' y='330'>its reply waits to be taken</text>\n"
        }
        Phase::Pending => {
            "<path class='pending ended' d='M13300 300H13600'/><text x='13650' y='330'>its answer waits</text>\n"
        }
        Phase::Closing => {
            "<path class='closing' d='M13300 440H13600'/><text x='13650' y='470'>its reply was taken before its end</text>\n"
        }
        Phase::Held(_) | Phase::Over => "",
    }
}

#[tactic(auto, unfolding(crate::specs::PictureStyle::held_sample))]
fn held_sample(hold: Hold) -> &'static str
    ensures { result.now ≡ drawn.held_sample hold }
{
    match hold {
        Hold::Manager(_) => {
            "<path class='manager' d='M100 440H400'/><text x='450' y='470'>held: a manager is HOLDING</text>\n"
        }
        Hold::Trial(_) => {
            "<path class='trial' d='M2300 440H2600'/><text x='2650' y='470'>held: a trial is in flight</text>\n"
        }
        Hold::Turn(_) => {
            "<path class='turn' d='M4500 440H4800'/><text x='4850' y='470'>held: one at a time</text>\n"
        }
        Hold::Main => {
            "<path class='main' d='M6700 440H7000'/><text x='7050' y='470'>held: for the first worker</text>\n"
        }
        Hold::Id(_) => {
            "<path class='id' d='M8900 440H9200'/><text x='9250' y='470'>held: its object comes or goes</text>\n"
        }
        Hold::Change(_) => {
            "<path class='change' d='M11100 440H11400'/><text x='11450' y='470'>held: the activator is busy</text>\n"
        }
    }
}
