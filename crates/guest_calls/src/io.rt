ghost use Rattle.std.specs.Prelude.{◌≡◌, ◌≤◌, ◌<◌, ◌++◌, [], ◌∷◌, length, drop, find, position, option_map, IfOk, OnOk, OnErr};
ghost use Rattle.plain_machine.specs.Calls.{counted, is_mapped, is_module};
ghost use Rattle.plain_machine.specs.Memory.{without_first};

use cc_base::Blob;
use plain_machine::{Heap, Mapping};
use std::alloc::{AllocError, Global};
use std::marker::Model;

/// What a guest has of the world outside its memory: the input that is left, the output, the heap, how many map calls
/// were made, and the modules that are mapped.
#[derive(Drop)]
pub struct GuestIo {
    input: Vec<u8>,
    taken: usize,
    output: Vec<u8>,
    heap: Option<Heap>,
    map_calls: u32,
    mapped: Vec<Mapping>,
}

impl Model for GuestIo {
    ghost use Rattle.std.specs.Prelude.{◌≤◌, drop, length};
    ghost use Rattle.plain_machine.specs.Io.{Io};

    ghost Value = { Io };

    ghost view = { λ i. record { input = drop i.taken i.input.items; output = i.output.items; heap = i.heap; map_calls = i.map_calls; mapped = i.mapped.items } };

    ghost invariant = { λ i. i.taken ≤ length i.input.items };
}

impl GuestIo {
    /// This input is left. The heap is empty at that address; for `None` there is none. Nothing was written, no map
    /// call was made, and no module is mapped.
    pub fn new(alloc: Global, input: &[u8], heap: Option<u32>) -> Result<GuestIo, AllocError>
        ensures { IfOk result (λ i. i ≡ record { input = input.now; output = []; heap = option_map (λ at. record { start = at; end = at }) heap; map_calls = 0; mapped = [] }) }
    {
        Ok(GuestIo {
            input: Vec::from_slice(alloc, input)?,
            taken: 0,
            output: Vec::new(alloc),
            heap: heap.map(|at| Heap { start: at, end: at }),
            map_calls: 0,
            mapped: Vec::new(alloc),
        })
    }

    /// The module is mapped, from this file. It keeps the file's number while it is mapped, whatever file the module
    /// becomes meanwhile.
    pub fn mark_mapped(&mut self, module: u32, file: u32) -> Result<(), AllocError>
        ensures ok { OnOk result (self.new ≡ record self.old { mapped = self.old.mapped ++ record { «module» = «module»; file = file } ∷ [] }) }
        ensures err { OnErr result (self.new ≡ self.old) }
    {
        self.mapped.push(Mapping { module, file })?;
        Ok(())
    }

    /// The module is mapped no more. It takes no memory.
    pub fn mark_unmapped(&mut self, module: u32)
        ensures { self.new ≡ record self.old { mapped = without_first (is_module «module») self.old.mapped } }
    {
        remove_first(&mut self.mapped, module);
    }

    /// The file that the module was mapped from, if it is mapped.
    pub fn file_of(&self, module: u32) -> Option<u32>
        ensures { result ≡ option_map (λ m. m.file) (find (is_module «module») self.now.mapped) }
    {
        self.mapped
            .iter()
            .find(|m| m.module == module)
            .map(|m| m.file)
    }

    /// Whether the module is mapped.
    pub fn is_mapped(&self, module: u32) -> bool
        ensures { result ≡ is_mapped self.now «module» }
    {
        self.mapped.iter().any(|m| m.module == module)
    }

    /// How many map calls were made.
    pub fn map_calls(&self) -> u32
        ensures { result ≡ self.now.map_calls }
    {
        self.map_calls
    }

    /// One more map call was made.
    pub(crate) fn count_map_call(&mut self)
        requires { self.old.map_calls < 4294967295 }
        ensures { self.new ≡ counted self.old }
    {
        self.map_calls += 1;
    }

    /// The output.
    pub fn output(&self) -> &[u8]
        ensures { result.now ≡ self.now.output }
    {
        &self.output
    }

    /// The output, with no memory taken.
    pub fn into_output(self) -> Blob
        ensures { result ≡ self.output }
    {
        let GuestIo { output, .. } = self;
        Blob::from_vec(output)
    }

    /// The input that is left.
    pub fn input(&self) -> &[u8]
        ensures { result.now ≡ self.now.input }
    {
        &self.input[self.taken..]
    }

    /// Takes `n` bytes of the input.
    pub(crate) fn take_input(&mut self, n: usize)
        requires { n ≤ length self.old.input }
        ensures { self.new ≡ record self.old { input = drop n self.old.input } }
    {
        self.taken += n;
    }

    /// Appends the bytes to the output.
    pub(crate) fn write(&mut self, bytes: &[u8]) -> Result<(), AllocError>
        ensures ok { OnOk result (self.new ≡ record self.old { output = self.old.output ++ bytes.now }) }
        ensures err { OnErr result (self.new ≡ self.old) }
    {
        self.output.extend_from_slice(bytes)
    }

    /// The heap; none where there is no room for one.
    pub fn heap(&self) -> Option<Heap>
        ensures { result ≡ self.now.heap }
    {
        self.heap
    }

    /// The heap is empty, at that address; for `None` there is none.
    pub fn start_heap(&mut self, at: Option<u32>)
        ensures { self.new ≡ record self.old { heap = option_map (λ at. record { start = at; end = at }) at } }
    {
        self.heap = at.map(|at| Heap { start: at, end: at });
    }

    /// Puts the heap there.
    pub(crate) fn set_heap(&mut self, heap: Heap)
        ensures { self.new ≡ record self.old { heap = Some heap } }
    {
        self.heap = Some(heap);
    }
}

fn place_of(mapped: &[Mapping], module: u32) -> Option<usize>
    ensures { result ≡ position (is_module «module») mapped.now }
{
    mapped.iter().position(|m| m.module == module)
}

fn remove_first(mapped: &mut Vec<Mapping>, module: u32)
    ensures { mapped.new.items ≡ without_first (is_module «module») mapped.old.items }
{
    if let Some(place) = place_of(mapped, module) {
        let _ = mapped.remove(place);
    }
}
