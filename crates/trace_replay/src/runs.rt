//! Laws of the joint run.

ghost use Rattle.std.specs.Prelude.{◌≡◌, ℕ, List, map};
ghost use Rattle.apb_rules.specs.declared.wires.BusWires.{BusWires};
ghost use Rattle.apb_rules.specs.declared.wires.Choice.{Choice};
ghost use Rattle.apb_rules.specs.Moves.{choice_of};
ghost use Rattle.trace_replay.specs.Blocks.{FlatBlock};
ghost use Rattle.trace_replay.specs.Joint.{start_of, wires_from};
ghost use Rattle.trace_replay.specs.Runs.{JointRun, IsDriven, IsJointRun, IsLegalRun, SameRun, HasJointRun};

/// Law: under each list of wires each register starts one joint run and no other.
pub fn one_joint_run()
    ensures there { (block : FlatBlock) (wires : List BusWires) (register : ℕ) → HasJointRun block wires register }
    ensures once { (block : FlatBlock) (wires : List BusWires) (first second : JointRun)
        → IsJointRun block wires first → IsJointRun block wires second → first.register 0 ≡ second.register 0 → SameRun wires first second }
{}

/// Law: the wires of a master's choices are those that these drive, and a legal master's, and the
/// wires of each legal master are those of some choices.
pub fn legal_by_choices()
    ensures driven { (block : FlatBlock) (register : ℕ) (choices : List Choice) (run : JointRun)
        → IsDriven block (wires_from block (start_of block register) choices) run choices }
    ensures drives_legal { (block : FlatBlock) (register : ℕ) (choices : List Choice) (run : JointRun)
        → IsLegalRun block (wires_from block (start_of block register) choices) run }
    ensures legal_is_driven { (block : FlatBlock) (register : ℕ) (wires : List BusWires) (run : JointRun)
        → IsLegalRun block wires run → wires_from block (start_of block register) (map choice_of wires) ≡ wires }
{}
