//! The five sequences.
ghost use Rattle.std.specs.Prelude.{◌<◌, map, IfSome};
ghost use Rattle.rl_access.specs.Model.{IsReady};
ghost use Rattle.rl_seq.specs.Running.{GoesOn, IsReadyAt, stage_at};
ghost use Rattle.rl_seq.specs.Sequences.{beginning_of};
ghost use Rattle.rl_seq.specs.Stage.{IsRunOf, stage_of};

use crate::running::Running;
use crate::sequence::Sequence;
use crate::step::perform_step;
use crate::walk::walk;
use rl_access::{Model, Op, Recorder, Tally};
use rl_bus::{Adapter, Adapters, Device, Failed};

/// Resets the chip by HARD, and checks every register in each of its maps: `uvm_reg_hw_reset_seq` (IEEE 1800.2-2017,
/// Annex E), with this project's own steps.
///
/// # Examples
///
/// Two registers have one place each, which may be read, and the device is as described.
///
/// ```text
/// let tally = hw_reset(&mut model, &mut device, &mut adapters, None, &mut recorder)?;
/// // The reset, and a check of each register:
/// tally == Tally { steps: 3, differences: 0, errors: 0 }
/// ```
pub fn hw_reset<D: Device, R: Recorder>(
    model: &mut Model,
    device: &mut D,
    adapters: &mut Adapters,
    block: Option<u32>,
    recorder: &mut R,
) -> Result<Tally, Failed>
    requires ready { IsReady model.old (map standing adapters.old.items) (D.state device.old) }
    requires block { IfSome block (λ b. b < model.old.chip.blocks) }
    ensures { IsRunOf R.Recorder Sequence.HwReset block
        (stage_of standing D.Device model.old adapters.old.items device.old recorder.old)
        (stage_of standing D.Device model.new adapters.new.items device.new recorder.new) result }
{
    run(Sequence::HwReset, block, model, device, adapters, recorder)
}

/// Turns each compared bit of every register round, twice, and checks the register each time:
/// `uvm_reg_bit_bash_seq` (IEEE 1800.2-2017, Annex E), which runs `uvm_reg_single_bit_bash_seq` on each register, with
/// this project's own steps.
pub fn bit_bash<D: Device, R: Recorder>(
    model: &mut Model,
    device: &mut D,
    adapters: &mut Adapters,
    block: Option<u32>,
    recorder: &mut R,
) -> Result<Tally, Failed>
    requires ready { IsReady model.old (map standing adapters.old.items) (D.state device.old) }
    requires block { IfSome block (λ b. b < model.old.chip.blocks) }
    ensures { IsRunOf R.Recorder Sequence.BitBash block
        (stage_of standing D.Device model.old adapters.old.items device.old recorder.old)
        (stage_of standing D.Device model.new adapters.new.items device.new recorder.new) result }
{
    run(Sequence::BitBash, block, model, device, adapters, recorder)
}

/// Writes every register over the bus and checks it by the backdoor, and the other way round:
/// `uvm_reg_access_seq` (IEEE 1800.2-2017, Annex E), with this project's own steps.
pub fn access_test<D: Device, R: Recorder>(
    model: &mut Model,
    device: &mut D,
    adapters: &mut Adapters,
    block: Option<u32>,
    recorder: &mut R,
) -> Result<Tally, Failed>
    requires ready { IsReady model.old (map standing adapters.old.items) (D.state device.old) }
    requires block { IfSome block (λ b. b < model.old.chip.blocks) }
    ensures { IsRunOf R.Recorder Sequence.Access block
        (stage_of standing D.Device model.old adapters.old.items device.old recorder.old)
        (stage_of standing D.Device model.new adapters.new.items device.new recorder.new) result }
{
    run(Sequence::Access, block, model, device, adapters, recorder)
}

/// Writes every register with several places in each of its maps, and checks it in each other one:
/// `uvm_reg_shared_access_seq` (IEEE 1800.2-2017, Annex E), with this project's own steps.
pub fn shared_access<D: Device, R: Recorder>(
    model: &mut Model,
    device: &mut D,
    adapters: &mut Adapters,
    block: Option<u32>,
    recorder: &mut R,
) -> Result<Tally, Failed>
    requires ready { IsReady model.old (map standing adapters.old.items) (D.state device.old) }
    requires block { IfSome block (λ b. b < model.old.chip.blocks) }
    ensures { IsRunOf R.Recorder Sequence.Shared block
        (stage_of standing D.Device model.old adapters.old.items device.old recorder.old)
        (stage_of standing D.Device model.new adapters.new.items device.new recorder.new) result }
{
    run(Sequence::Shared, block, model, device, adapters, recorder)
}

/// Walks over every memory: each location takes the inverse of its number, and then its number:
/// `uvm_mem_walk_seq` (IEEE 1800.2-2017, Annex E), with this project's own steps.
pub fn mem_walk<D: Device, R: Recorder>(
    model: &mut Model,
    device: &mut D,
    adapters: &mut Adapters,
    block: Option<u32>,
    recorder: &mut R,
) -> Result<Tally, Failed>
    requires ready { IsReady model.old (map standing adapters.old.items) (D.state device.old) }
    requires block { IfSome block (λ b. b < model.old.chip.blocks) }
    ensures { IsRunOf R.Recorder Sequence.MemWalk block
        (stage_of standing D.Device model.old adapters.old.items device.old recorder.old)
        (stage_of standing D.Device model.new adapters.new.items device.new recorder.new) result }
{
    run(Sequence::MemWalk, block, model, device, adapters, recorder)
}

// The sequence with this name.
fn run<D: Device, R: Recorder>(
    sequence: Sequence,
    block: Option<u32>,
    model: &mut Model,
    device: &mut D,
    adapters: &mut Adapters,
    recorder: &mut R,
) -> Result<Tally, Failed>
    requires ready { IsReady model.old (map standing adapters.old.items) (D.state device.old) }
    requires block { IfSome block (λ b. b < model.old.chip.blocks) }
    ensures { IsRunOf R.Recorder sequence block
        (stage_of standing D.Device model.old adapters.old.items device.old recorder.old)
        (stage_of standing D.Device model.new adapters.new.items device.new recorder.new) result }
{
    let mut running = Running {
        model,
        device,
        adapters,
        recorder,
        tally: Tally::new(),
    };
    begin(sequence, &mut running)?;
    walk(sequence, block, &mut running)?;
    Ok(running.tally)
}

// What comes before its walk: a HARD reset, or nothing.
fn begin<D: Device, R: Recorder>(
    sequence: Sequence,
    run: &mut Running<'_, D, R>,
) -> Result<(), Failed>
    requires { IsReadyAt (stage_at D.Device (map standing run.old.adapters.now.items) run.old) }
    ensures { GoesOn R.Recorder D.Device
        (map standing run.old.adapters.now.items) (map standing run.new.adapters.now.items) run.old run.new
        (beginning_of sequence) result }
{
    match sequence {
        Sequence::HwReset => {
            let _has_kinds = run.model.chip(); // HARD is one of its kinds
            let reset = Op::Reset { kind: 0 };
            perform_step(
                run.model,
                run.device,
                run.adapters,
                reset,
                run.recorder,
                &mut run.tally,
            )
        }
        _ => Ok(()),
    }
}
