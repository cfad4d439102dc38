//! The machine state that a state file gives.

ghost use Rattle.std.specs.Prelude.{◌≡◌, ℕ, ◌+◌, ◌≤◌, ◌^◌, ◌&&◌, ◌∷◌, ◌++◌, [], List, OnOk, IfOk, IfErr, Some, length, MatchOption};
ghost use Rattle.std.specs.Bool.{OnTrue};
ghost use Rattle.std.specs.Ordering.{nat_cmp};
ghost use Rattle.std.specs.BTreeMap.{get, Updates, IsUnchanged};
ghost use Rattle.std.specs.Option.{option_or};
ghost use Rattle.dw_rules.specs.Abi.{abi_of};
ghost use Rattle.dw_rules.specs.AbiViews.{roles_of};
ghost use Rattle.dw_state.specs.StateFile.{StateFact, FitsAddresses, IsGivenBy, byte_in};
ghost use Rattle.dw_state.specs.StateFile.{facts_of_lines, is_line, go_together, facts_of_file};
ghost use Rattle.dw_state.specs.StateViews.{fact_of, known_state_of, IsBadState, IsStateOf};

use crate::abi_registers::AbiRegisters;
use crate::split::Parts;
use crate::state_fault::StateFault;
use crate::state_line::{StateLine, parse_line};
use byteorder::{BigEndian, ByteOrder, LittleEndian};
use dw_bytes::{Order, Target};
use dw_eval::{Memory, Registers};
use dw_rules::Abi;
use std::alloc::{AllocError, Global};
use std::collections::BTreeMap;

/// The known part of a machine's state.
#[derive(Drop)]
pub struct MachineState {
    registers: BTreeMap<u16, u64>,
    memory: BTreeMap<u64, u8>,
    pub cfa: Option<u64>,
    pub frame_base: Option<u64>,
    pub object: Option<u64>,
    abi_registers: AbiRegisters,
}

/// Adds `key` with `value`, unless the map already has `key`.
fn add_first_value<K: Ord + Copy, V: Drop>(
    map: &mut BTreeMap<K, V>,
    key: K,
    value: V,
) -> Result<(), AllocError>
    ensures { OnOk result (MatchOption (get K.cmp map.old key)
        (Updates K.cmp map.old map.new key (Some value)) (λ _. IsUnchanged map.old map.new)) }
{
    if !map.contains_key(&key) {
        map.insert(key, value)?;
    }
    Ok(())
}

/// `old` if it has a value, else `value`.
fn first_value(old: Option<u64>, value: u64) -> Option<u64>
    ensures { result ≡ option_or old (Some value) }
{
    old.or(Some(value))
}

/// Adds `bytes` to `memory`, the first of them at `address`. An address that already has a byte
/// keeps that byte.
fn add_memory_bytes(
    memory: &mut BTreeMap<u64, u8>,
    address: u64,
    bytes: &[u8],
) -> Result<(), AllocError>
    requires { address + length bytes.now ≤ 2 ^ 64 }
    ensures { OnOk result ((a : ℕ) → get nat_cmp memory.new a ≡ option_or (get nat_cmp memory.old a)
        (byte_in a (StateFact.bytes address bytes.now))) }
{
    for (index, byte) in bytes.iter().enumerate() {
        add_first_value(memory, address + index as u64, *byte)?;
    }
    Ok(())
}

impl MachineState {
    /// A state in which nothing is known.
    pub fn new(alloc: Global) -> Self
        ensures { IsGivenBy (known_state_of result) [] }
    {
        MachineState {
            registers: BTreeMap::new(alloc),
            memory: BTreeMap::new(alloc),
            cfa: None,
            frame_base: None,
            object: None,
            abi_registers: AbiRegisters::new(),
        }
    }

    /// The ABI with the callee-saved registers and the stack pointer that the state file names.
    pub fn abi(&self) -> Abi
        ensures { let known = known_state_of self.now
            in roles_of result ≡ abi_of known.kept known.stack_pointer }
    {
        self.abi_registers.abi()
    }

    /// Adds what a line gives and returns true. A value that an earlier line gave stays as it is.
    /// Returns false for a `keep` line if its register is the stack pointer, or is new and there
    /// are `MAX_KEPT` callee-saved registers already. Returns false for the first `sp` line if its
    /// register is callee-saved.
    fn add(&mut self, line: StateLine) -> Result<bool, AllocError>
        requires { FitsAddresses (fact_of line) }
        ensures taken { IfOk result (λ taken. (facts : List StateFact)
            → IsGivenBy (known_state_of self.old) facts
            → taken ≡ go_together (facts ++ fact_of line ∷ [])) }
        ensures given { IfOk result (λ taken. OnTrue taken ((facts : List StateFact)
            → IsGivenBy (known_state_of self.old) facts
            → IsGivenBy (known_state_of self.new) (facts ++ fact_of line ∷ []))) }
    {
        match line {
            StateLine::Register { number, content } => add_first_value(
                &mut self.registers,
                number,
                content,
            )?,
            StateLine::Memory { address, bytes } => add_memory_bytes(
                &mut self.memory,
                address,
                bytes.as_slice(),
            )?,
            StateLine::Cfa(value) => self.cfa = first_value(self.cfa, value),
            StateLine::FrameBase(value) => self.frame_base = first_value(self.frame_base, value),
            StateLine::Object(value) => self.object = first_value(self.object, value),
            StateLine::Keep(number) => return Ok(self.abi_registers.keep(number)),
            StateLine::StackPointer(number) => {
                return Ok(self.abi_registers.set_stack_pointer(number));
            }
        }
        Ok(true)
    }

    /// Adds what a line gives and returns true. An empty line gives nothing. Returns false if the
    /// line is malformed, or if `add` returns false for what it gives.
    fn add_line(&mut self, alloc: Global, target: Target, line: &[u8]) -> Result<bool, AllocError>
        ensures taken { IfOk result (λ taken. (facts : List StateFact)
            → IsGivenBy (known_state_of self.old) facts
            → taken ≡ (is_line target line.now
            && go_together (facts ++ facts_of_lines target (line.now ∷ [])))) }
        ensures given { IfOk result (λ taken. OnTrue taken ((facts : List StateFact)
            → IsGivenBy (known_state_of self.old) facts
            → IsGivenBy (known_state_of self.new)
            (facts ++ facts_of_lines target (line.now ∷ [])))) }
    {
        if line.is_empty() {
            return Ok(true);
        }
        match parse_line(alloc, target, line)? {
            Some(given) => self.add(given),
            None => Ok(false),
        }
    }
}

impl Registers for MachineState {
    ghost contents = { λ m. (known_state_of m).registers };

    fn register(&self, number: u16) -> Option<u64> {
        self.registers.get(&number).copied()
    }
}

impl Memory for MachineState {
    ghost bytes = { λ m. (known_state_of m).memory };

    fn read(&self, address: u64, size: u8, order: Order) -> Option<u64> {
        let mut bytes = [0; 8];
        for index in 0..size {
            bytes[usize::from(index)] = *self.memory.get(&(address + u64::from(index)))?;
        }
        let count = usize::from(size);
        Some(match order {
            Order::Little => LittleEndian::read_uint(&bytes[..count], count),
            Order::Big => BigEndian::read_uint(&bytes[..count], count),
        })
    }
}

/// Reads a state file. If a line is malformed, contradicts earlier lines, or names one callee-saved
/// register too many, the error has the number of the first such line. Empty lines are skipped. If
/// several lines give values for the same register, byte, CFA or other item, the earliest of these
/// lines counts. Takes O(n log n) time for a file of n bytes.
pub fn read_state(alloc: Global, target: Target, text: &[u8]) -> Result<MachineState, StateFault>
    ensures state { IfOk result (IsStateOf (facts_of_file target text.now)) }
    ensures stop { IfErr result (IsBadState (facts_of_file target text.now)) }
{
    let mut state = MachineState::new(alloc);
    let mut number = 0;
    for line in Parts::new(text, b'\n') {
        number += 1;
        if !state.add_line(alloc, target, line)? {
            return Err(StateFault::Line(number));
        }
    }
    Ok(state)
}
