// The guests of a run.
ghost use Rattle.std.specs.Prelude.{◌≡◌, ◌<◌, ◌≤◌, [], length, slice_get, unwrap_or, IfOk, OnOk};
ghost use Rattle.whole_run.specs.Job.{job_of, plan_of};
ghost use Rattle.whole_run.specs.Crew.{IsWorkOf};

use cc_base::Blob;
use elf_map::Elf;
use guest_loop::{Plan, Ran, Setup, Work, run_guest};
use guest_rounds::Guests;
use manifest::{Manifest, ModuleRow};
use registry::Registry;
use slot_list::SlotLayout;
use std::alloc::{AllocError, Global};
use std::marker::Model;

/// The guests of a manifest, with what they share, and what each of them may read.
#[derive(Drop)]
pub struct Crew<'a> {
    alloc: Global,
    plan: Plan,
    manifest: &'a Manifest,
    inputs: &'a [Blob],
}

impl<'a> Model for Crew<'a> {
    ghost use Rattle.std.specs.Prelude.{◌≡◌, length};
    ghost use Rattle.whole_run.specs.Job.{Job, job_of, plan_of};

    ghost Value = { Job };

    ghost view = { λ c. job_of c.manifest.now c.plan.elfs c.inputs.now };

    ghost invariant = { λ c. (c.plan ≡ plan_of (job_of c.manifest.now c.plan.elfs c.inputs.now)) × (length c.inputs.now ≡ length c.manifest.now.guests) };
}

impl<'a> Crew<'a> {
    /// The guests of a manifest. `elfs` has the programs of its files, and `inputs` what each of its guests may read.
    pub fn of(
        alloc: Global,
        manifest: &'a Manifest,
        elfs: Vec<Elf>,
        inputs: &'a [Blob],
    ) -> Result<Crew<'a>, AllocError>
        requires { length inputs.now ≡ length manifest.now.guests }
        ensures crew { IfOk result (λ crew. crew ≡ job_of manifest.now elfs.items inputs.now) }
        ensures few { OnOk result (length manifest.now.modules ≤ 32) }
    {
        let plan = plan_of(alloc, manifest, elfs)?;
        Ok(Crew {
            alloc,
            plan,
            manifest,
            inputs,
        })
    }
}

// What the guests share.
fn plan_of(alloc: Global, manifest: &Manifest, elfs: Vec<Elf>) -> Result<Plan, AllocError>
    ensures plan { IfOk result (λ plan. plan ≡ plan_of (job_of manifest.now elfs.items [])) }
    ensures few { OnOk result (length manifest.now.modules ≤ 32) }
{
    let layout = SlotLayout::of(alloc, manifest.guests(), &elfs)?;
    let modules = modules_in(alloc, manifest.modules())?;
    Ok(Plan {
        elfs,
        modules,
        layout,
    })
}

// The modules again.
fn modules_in(alloc: Global, rows: &[ModuleRow]) -> Result<Vec<ModuleRow>, AllocError>
    ensures { IfOk result (λ v. v.items ≡ rows.now) }
{
    let mut modules = Vec::new(alloc);
    for row in rows {
        modules.push(ModuleRow {
            name: row.name.copy(alloc)?,
            file: row.file,
            base: row.base,
        })?;
    }
    Ok(modules)
}

// What the guest of this number may read.
fn input_of(inputs: &[Blob], guest: u32) -> &Blob
    requires { guest < length inputs.now }
    ensures { result.now ≡ unwrap_or (slice_get inputs.now guest) [] }
{
    &inputs[guest as usize]
}

// The guest of this number, which may read this.
fn work_of(alloc: Global, manifest: &Manifest, input: &Blob, guest: u32) -> Result<Work, AllocError>
    requires { guest < length manifest.now.guests }
    ensures work { IfOk result (IsWorkOf manifest.now guest input.now) }
    ensures number { IfOk result (λ work. work.guest ≡ guest) }
    ensures known { IfOk result (λ work. work.«module» < length manifest.now.modules) }
{
    let row = &manifest.guests()[guest as usize];
    Ok(Work {
        guest,
        name: row.name.copy(alloc)?,
        module: row.module,
        setup: Setup {
            isa: row.isa,
            tool: row.tool,
            max: row.max,
            fuel: row.fuel,
            pool: row.pool,
            stack: row.stack,
            input: Blob::of(alloc, input.items())?,
        },
    })
}

impl<'a> Guests for Crew<'a> {
    ghost use Rattle.whole_run.specs.Job.{tells};
    ghost use Rattle.whole_run.specs.Crew.{MayRun};

    type Ran = Ran;

    type Plan = Crew<'a>;

    ghost plan = { λ crew. crew };

    ghost may_run = { MayRun };

    ghost tells = { tells };

    fn run(&mut self, guest: u32, registry: &mut Registry) -> Result<Ran, AllocError> {
        let input = input_of(self.inputs, guest);
        let work = work_of(self.alloc, self.manifest, input, guest)?;
        let ran = run_guest(self.alloc, &self.plan, work, registry);
        let _ = registry.journal();
        ran
    }
}
