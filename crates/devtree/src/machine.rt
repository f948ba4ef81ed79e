// The tokens of a machine's tree.
ghost use Rattle.std.specs.Prelude.{◌≡◌, ◌∷◌, ◌++◌, IfOk, OnOk, [], codes, map};
ghost use Rattle.devtree.specs.Coding.{all_of};
ghost use Rattle.devtree.specs.Flat.{begin, end, property, property_token, tokens_of, tokens_of_all};
ghost use Rattle.devtree.specs.Machine as machine;
ghost use Rattle.devtree.specs.Tree.{text};
ghost use Rattle.vm_config.specs.Devices.{device_count};

use crate::flat::file_of;
use crate::token::{Token, Value};
use api_calls::BootSource;
use board_table::{WINDOW_SIZE, WINDOW_START};
use guest_memory::RAM_START;
use port_table::{PORT_SIZE, PORTS_START};
use std::alloc::{AllocError, Global};
use vm_config::Config;

/// Where the initial RAM disk stands in memory: its first address, and the one behind its last byte.
#[derive(Clone, Copy, Drop)]
pub struct InitrdPlace {
    pub start: u64,
    pub end: u64,
}

// One hart counts nanoseconds.
const TIMEBASE: u64 = 1_000_000_000;

#[tactic(auto, using(crate::proofs::Passes::map_append))]
fn open_root(tokens: &mut Vec<Token<'_>>) -> Result<(), AllocError>
    ensures { OnOk result (all_of tokens.new.items
        ≡ all_of tokens.old.items ++ begin [] ∷ map property_token machine.root_properties) }
{
    tokens.extend_from_slice(&[
        Token::Begin("", None),
        Token::Property("#address-cells", Value::Cell(2)),
        Token::Property("#size-cells", Value::Cell(2)),
        Token::Property("compatible", Value::Text("firecracker,rv64")),
    ])
}

#[tactic(auto, using(crate::proofs::Passes::map_append))]
fn push_initrd(tokens: &mut Vec<Token<'_>>, initrd: Option<InitrdPlace>) -> Result<(), AllocError>
    ensures { OnOk result (all_of tokens.new.items
        ≡ all_of tokens.old.items ++ map property_token (machine.initrd_properties initrd)) }
{
    let Some(initrd) = initrd else {
        return Ok(());
    };
    tokens.extend_from_slice(&[
        Token::Property("linux,initrd-start", Value::Wide(initrd.start as u128)),
        Token::Property("linux,initrd-end", Value::Wide(initrd.end as u128)),
    ])
}

#[tactic(auto, using(crate::proofs::Passes::map_append))]
fn open_chosen<'a>(tokens: &mut Vec<Token<'a>>, boot_args: &'a str) -> Result<(), AllocError>
    ensures { OnOk result (all_of tokens.new.items ≡ all_of tokens.old.items
        ++ begin (codes "chosen") ∷ property (codes "bootargs") (text boot_args.now) ∷ []) }
{
    tokens.extend_from_slice(&[
        Token::Begin("chosen", None),
        Token::Property("bootargs", Value::Text(boot_args)),
    ])
}

#[tactic(auto, using(crate::proofs::Passes::map_append))]
fn close(tokens: &mut Vec<Token<'_>>) -> Result<(), AllocError>
    ensures { OnOk result (all_of tokens.new.items ≡ all_of tokens.old.items ++ end ∷ []) }
{
    tokens.extend_from_slice(&[Token::End])
}

fn push_chosen<'a>(
    tokens: &mut Vec<Token<'a>>,
    boot_args: &'a str,
    initrd: Option<InitrdPlace>,
) -> Result<(), AllocError>
    ensures { OnOk result (all_of tokens.new.items
        ≡ all_of tokens.old.items ++ tokens_of (machine.chosen boot_args.now initrd)) }
{
    open_chosen(tokens, boot_args)?;
    push_initrd(tokens, initrd)?;
    close(tokens)?;
    Ok(())
}

#[tactic(auto, using(crate::proofs::Passes::map_append))]
fn push_memory(tokens: &mut Vec<Token<'_>>, mem_size_mib: u64) -> Result<(), AllocError>
    ensures { OnOk result (all_of tokens.new.items
        ≡ all_of tokens.old.items ++ tokens_of (machine.memory mem_size_mib)) }
{
    let size = mem_size_mib as u128 * 0x10_0000;
    tokens.extend_from_slice(&[
        Token::Begin("memory", Some(RAM_START)),
        Token::Property("device_type", Value::Text("memory")),
        Token::Property("reg", Value::Region(RAM_START, size)),
        Token::End,
    ])
}

#[tactic(auto, using(crate::proofs::Passes::map_append))]
fn push_cpu(tokens: &mut Vec<Token<'_>>, hart: u64) -> Result<(), AllocError>
    ensures { OnOk result (all_of tokens.new.items
        ≡ all_of tokens.old.items ++ tokens_of (machine.cpu hart)) }
{
    tokens.extend_from_slice(&[
        Token::Begin("cpu", Some(hart)),
        Token::Property("device_type", Value::Text("cpu")),
        Token::Property("reg", Value::Cell(hart)),
        Token::Property("status", Value::Text("okay")),
        Token::Property("compatible", Value::Text("riscv")),
        Token::Property("riscv,isa", Value::Text("rv64ima")),
        Token::End,
    ])
}

fn push_each_cpu(tokens: &mut Vec<Token<'_>>, harts: u64) -> Result<(), AllocError>
    ensures { OnOk result (all_of tokens.new.items
        ≡ all_of tokens.old.items ++ tokens_of_all (machine.nodes_from machine.cpu 0 harts)) }
{
    for hart in 0..harts {
        push_cpu(tokens, hart)?;
    }
    Ok(())
}

#[tactic(auto, using(crate::proofs::Passes::map_append))]
fn open_cpus(tokens: &mut Vec<Token<'_>>) -> Result<(), AllocError>
    ensures { OnOk result (all_of tokens.new.items
        ≡ all_of tokens.old.items ++ begin (codes "cpus") ∷ map property_token machine.cpus_properties) }
{
    tokens.extend_from_slice(&[
        Token::Begin("cpus", None),
        Token::Property("#address-cells", Value::Cell(1)),
        Token::Property("#size-cells", Value::Cell(0)),
        Token::Property("timebase-frequency", Value::Cell(TIMEBASE)),
    ])
}

fn push_cpus(tokens: &mut Vec<Token<'_>>, harts: u64) -> Result<(), AllocError>
    ensures { OnOk result (all_of tokens.new.items
        ≡ all_of tokens.old.items ++ tokens_of (machine.cpus harts)) }
{
    open_cpus(tokens)?;
    push_each_cpu(tokens, harts)?;
    close(tokens)?;
    Ok(())
}

#[tactic(auto, using(crate::proofs::Passes::map_append))]
fn push_board(tokens: &mut Vec<Token<'_>>) -> Result<(), AllocError>
    ensures { OnOk result (all_of tokens.new.items
        ≡ all_of tokens.old.items ++ tokens_of machine.board) }
{
    tokens.extend_from_slice(&[
        Token::Begin("board", Some(WINDOW_START)),
        Token::Property("compatible", Value::Text("firecracker,rv64-board")),
        Token::Property("reg", Value::Region(WINDOW_START, WINDOW_SIZE as u128)),
        Token::Property("#interrupt-cells", Value::Cell(1)),
        Token::Property("interrupt-controller", Value::Empty),
        Token::Property("phandle", Value::Cell(1)),
        Token::End,
    ])
}

#[tactic(auto, using(crate::proofs::Passes::map_append))]
fn push_device(tokens: &mut Vec<Token<'_>>, device: u32) -> Result<(), AllocError>
    ensures { OnOk result (all_of tokens.new.items
        ≡ all_of tokens.old.items ++ tokens_of (machine.device device)) }
{
    let port = PORTS_START + PORT_SIZE * device as u64;
    tokens.extend_from_slice(&[
        Token::Begin("virtio_mmio", Some(port)),
        Token::Property("compatible", Value::Text("virtio,mmio")),
        Token::Property("reg", Value::Region(port, PORT_SIZE as u128)),
        Token::Property("interrupts", Value::Cell(device as u64)),
        Token::End,
    ])
}

fn push_devices(tokens: &mut Vec<Token<'_>>, devices: u32) -> Result<(), AllocError>
    ensures { OnOk result (all_of tokens.new.items
        ≡ all_of tokens.old.items ++ tokens_of_all (machine.nodes_from machine.device 0 devices)) }
{
    for device in 0..devices {
        push_device(tokens, device)?;
    }
    Ok(())
}

#[tactic(auto, using(crate::proofs::Passes::map_append))]
fn open_soc(tokens: &mut Vec<Token<'_>>) -> Result<(), AllocError>
    ensures { OnOk result (all_of tokens.new.items
        ≡ all_of tokens.old.items ++ begin (codes "soc") ∷ map property_token machine.soc_properties) }
{
    tokens.extend_from_slice(&[
        Token::Begin("soc", None),
        Token::Property("#address-cells", Value::Cell(2)),
        Token::Property("#size-cells", Value::Cell(2)),
        Token::Property("compatible", Value::Text("simple-bus")),
        Token::Property("ranges", Value::Empty),
        Token::Property("interrupt-parent", Value::Cell(1)),
    ])
}

fn push_soc(tokens: &mut Vec<Token<'_>>, devices: u32) -> Result<(), AllocError>
    ensures { OnOk result (all_of tokens.new.items
        ≡ all_of tokens.old.items ++ tokens_of (machine.soc devices)) }
{
    open_soc(tokens)?;
    push_board(tokens)?;
    push_devices(tokens, devices)?;
    close(tokens)?;
    Ok(())
}

fn args_by(source: &Option<BootSource>) -> &str
    ensures { result.now ≡ machine.args_by source.now }
{
    match source {
        Some(source) => source.boot_args.as_str(),
        None => "",
    }
}

// A tree of more devices than 32 bits count is more than memory holds.
fn count_devices(config: &Config) -> Result<u32, AllocError>
    ensures { IfOk result (λ count. count ≡ device_count config.now) }
{
    u32::try_from(config.device_count()).map_err(|_| AllocError)
}

fn push_all<'a>(
    tokens: &mut Vec<Token<'a>>,
    config: &'a Config,
    initrd: Option<InitrdPlace>,
    devices: u32,
) -> Result<(), AllocError>
    ensures { OnOk result (all_of tokens.new.items
        ≡ all_of tokens.old.items ++ tokens_of (machine.tree_with config.now initrd devices)) }
{
    open_root(tokens)?;
    push_chosen(tokens, args_by(&config.boot_source), initrd)?;
    push_memory(tokens, config.machine.mem_size_mib)?;
    push_cpus(tokens, config.machine.vcpu_count)?;
    push_soc(tokens, devices)?;
    close(tokens)?;
    Ok(())
}

/// The flattened device tree of a configuration, with its initial RAM disk where this says.
pub fn write_tree(
    alloc: Global,
    config: &Config,
    initrd: Option<InitrdPlace>,
) -> Result<Vec<u8>, AllocError>
    ensures { IfOk result (λ tree. tree.items ≡ machine.tree_bytes config.now initrd) }
{
    let devices = count_devices(config)?;
    let mut tokens = Vec::new(alloc);
    push_all(&mut tokens, config, initrd, devices)?;
    let tree = file_of(alloc, tokens.as_slice())?;
    Ok(tree)
}
