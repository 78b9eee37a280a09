ghost use Rattle.cell_words.specs.Control.{IsControlWord, IsValidControl, greatest_position_of};
ghost use Rattle.cell_words.specs.Control.{pack_control_of, pack_stage_of};
ghost use Rattle.cell_words.specs.declared.controls.Control.{Control};
ghost use Rattle.cell_words.specs.declared.controls.Stage.{Stage};
ghost use Rattle.std.specs.Prelude.{IfSome, IsSome, Some, ◌≡◌, ◌↔◌};

/// What the collector does now.
#[derive(Clone, Copy, Debug, PartialEq, Eq)]
pub enum Stage {
    Idle,
    Sync1,
    Clear,
    Sync2,
    Trace,
    Sweep,
}

/// The collector's control word, which only the collector stores.
#[derive(Clone, Copy, Debug, PartialEq, Eq)]
pub struct Control {
    pub stage: Stage,
    /// the cell that the sweep has come to; 0 in every other stage
    pub position: u32,
    /// how many cycles have ended
    pub cycles: u32,
    /// whether the collector is on duty: it runs cycle after cycle without being asked
    pub duty: bool,
}

/// The greatest position of the sweep, which is the greatest number of cells of a heap.
pub const GREATEST_POSITION: u32 = 4_194_304;

/// The greatest number of ended cycles.
pub const GREATEST_CYCLES: u32 = 4_000_000_000;

/// The word of a control: from the lowest bit on the stage, the duty bit, two bits that are 0, the
/// position and the ended cycles.
pub fn pack_control(control: Control) -> u64
    requires { IsValidControl control }
    ensures word { result ≡ pack_control_of control }
{
    let stage = pack_stage(control.stage);
    let duty = if control.duty { DUTY } else { 0 };
    stage + duty + POSITION * u64::from(control.position) + CYCLES * u64::from(control.cycles)
}

/// The control that a word is, if it is one's.
pub fn unpack_control(word: u64) -> Option<Control>
    ensures valid { IfSome result IsValidControl }
    ensures found { IfSome result (λ control. pack_control_of control ≡ word) }
    ensures packed { (control : Control) → IsValidControl control → pack_control_of control ≡ word
        → result ≡ Some control }
    ensures some { IsSome result ↔ IsControlWord word }
{
    let stage = unpack_stage(word % DUTY)?;
    let duty = word / DUTY % 2 == 1;
    let position = word % CYCLES / POSITION;
    let cycles = word / CYCLES;
    if word / 16 % 4 != 0 {
        return None;
    }
    if position > greatest_position(stage) || cycles > u64::from(GREATEST_CYCLES) {
        return None;
    }
    Some(Control {
        stage,
        position: position as u32,
        cycles: cycles as u32,
        duty,
    })
}

/// The duty bit.
const DUTY: u64 = 8;

/// The lowest bit of the position.
const POSITION: u64 = 64;

/// The lowest bit of the ended cycles.
const CYCLES: u64 = 1 << 32;

fn pack_stage(stage: Stage) -> u64
    ensures word { result ≡ pack_stage_of stage }
{
    match stage {
        Stage::Idle => 0,
        Stage::Sync1 => 1,
        Stage::Clear => 2,
        Stage::Sync2 => 3,
        Stage::Trace => 4,
        Stage::Sweep => 5,
    }
}

fn unpack_stage(word: u64) -> Option<Stage>
    ensures found { IfSome result (λ stage. pack_stage_of stage ≡ word) }
    ensures packed { (stage : Stage) → pack_stage_of stage ≡ word → result ≡ Some stage }
{
    match word {
        0 => Some(Stage::Idle),
        1 => Some(Stage::Sync1),
        2 => Some(Stage::Clear),
        3 => Some(Stage::Sync2),
        4 => Some(Stage::Trace),
        5 => Some(Stage::Sweep),
        _ => None,
    }
}

fn greatest_position(stage: Stage) -> u64
    ensures position { result ≡ greatest_position_of stage }
{
    match stage {
        Stage::Sweep => u64::from(GREATEST_POSITION),
        _ => 0,
    }
}
