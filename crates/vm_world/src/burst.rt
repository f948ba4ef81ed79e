// Instructions of one hart in RAM, one after another: with the pc and a count of them held apart from the registers, and with
// the page that they are in.
ghost use Rattle.std.specs.Prelude.{◌≡◌, ◌≤◌, ◌<◌, ◌+◌, ◌*◌, ◌^◌, ℕ, false, true, None, Some, IfSome, length};
ghost use Rattle.guest_memory.specs.Ram.{ram_start};
ghost use Rattle.guest_pages.specs.Code.{IsCode};
ghost use Rattle.guest_pages.specs.Made.{HasRoom, Spends};
ghost use Rattle.hart_trace.specs.States.{fresh};
ghost use Rattle.rv_rows.specs.Loads.{load_width};
ghost use Rattle.rv_supervisor.specs.declared.regs.Turn.TheVariants as turn;
ghost use Rattle.vm_types.specs.declared.ids.ActorId.{ActorId as Actor};
ghost use Rattle.vm_world.specs.Bursts.{Bursts, CountsSo, EndsSo, HaveWord, Loads, Stores, accesses_in, counted, next_after};

mod by_operation;

use by_operation::go_on_decoded;
use decoded_words::DecodedWords;
use guest_memory::RAM_START;
use guest_pages::{CodePage, PageSet};
use hart_rv64::Hart;
use rv_alu::load_value;
use rv_decode::function_fields::opcode;
use rv_doing::{load_kind, plain_at, store_width};
use rv_rows::fields::{i_immediate, rd, rs1, rs2, s_immediate};
use rv_rows::{LoadKind, Width};
use rv_supervisor::{Regs, Turn};
use vm_types::ActorId;

// How an instruction ended that is made here.
#[derive(Clone, Copy, Drop)]
enum Ended {
    /// It asked for nothing, and this is where the next one is.
    Went(u64),
    /// It loaded or stored, and this is where the next one is.
    Accessed(u64),
}

// What a load of this kind and width puts into its register, where it is aligned and RAM has its bytes.
#[inline(always)]
fn load_as(pages: &PageSet, kind: LoadKind, width: Width, at: u64) -> Option<u64>
    requires { load_width kind ≡ width }
    ensures { IfSome result (λ value. Loads pages.now.pages kind at value) }
{
    if at % width.bytes() as u64 != 0 || at < RAM_START {
        return None;
    }
    Some(load_value(kind, pages.read_word(at, width)?))
}

// Makes a store of this width, where it is aligned and RAM has its bytes. Answers whether it is made.
#[tactic(auto, using(guest_pages::proofs::Making::no_spends, guest_pages::proofs::Making::room_ready))]
#[inline(always)]
fn store_as(pages: &mut PageSet, number: u8, width: Width, at: u64, value: u64) -> bool
    requires { HasRoom 1 pages.old }
    ensures made { result ≡ true → Stores pages.old.pages (Actor.Hart number) width at value pages.new.pages }
    ensures left { result ≡ false → pages.new ≡ pages.old }
    ensures spends { Spends 1 pages.old pages.new }
{
    if at % width.bytes() as u64 != 0 || at < RAM_START {
        return false;
    }
    pages.write_word(ActorId::Hart(number), at, value, width)
}

// The same where the page was written before and no hart has anything reserved in it.
#[inline(always)]
fn store_marked(pages: &mut PageSet, width: Width, at: u64, value: u64) -> bool
    ensures made { result ≡ true → (actor : Actor) → Stores pages.old.pages actor width at value pages.new.pages }
    ensures left { result ≡ false → pages.new ≡ pages.old }
    ensures count { length pages.new.pages ≡ length pages.old.pages }
    ensures spends { Spends 0 pages.old pages.new }
{
    if at % width.bytes() as u64 != 0 || at < RAM_START {
        return false;
    }
    pages.write_marked(at, value, width)
}

// Makes the instruction whose word was read at this pc, with its load or store, where RAM has that. `None` where it is any
// other, and then nothing is changed.
#[tactic(auto, using(guest_pages::proofs::Making::no_spends))]
#[inline]
fn go_on(pages: &mut PageSet, regs: &mut Regs, number: u8, word: u32, pc: u64) -> Option<Ended>
    requires ram { ram_start ≤ pc }
    requires read { HaveWord pages.old.pages pc word }
    requires room { HasRoom 1 pages.old }
    ensures goes { IfSome result (λ ended. EndsSo pages.old.pages pc regs.old (Actor.Hart number) ended pages.new.pages regs.new) }
    ensures kept { regs.new ≡ record regs.old { x = regs.new.x } }
    ensures none { result ≡ None → (pages.new ≡ pages.old) × (regs.new ≡ regs.old) }
    ensures count { length pages.new.pages ≡ length pages.old.pages }
    ensures spends { Spends 1 pages.old pages.new }
{
    let a = regs.get(rs1(word));
    match opcode(word) {
        0x03 => {
            let kind = load_kind(word)?;
            let at = a.wrapping_add(i_immediate(word));
            let value = load_as(pages, kind, kind.width(), at)?;
            regs.put(rd(word), value);
            Some(Ended::Accessed(pc.wrapping_add(4)))
        }
        0x23 => {
            let b = regs.get(rs2(word));
            let width = store_width(word)?;
            let at = a.wrapping_add(s_immediate(word));
            if store_as(pages, number, width, at, b) {
                Some(Ended::Accessed(pc.wrapping_add(4)))
            } else {
                None
            }
        }
        _ => Some(Ended::Went(plain_at(word, pc, a, regs)?)),
    }
}

// The same where the word is kept decoded and frequent, whatever the hart's number is, with its access
// counted. Answers where the next one is; `None` where it isn't so, and then nothing is changed.
#[inline(always)]
fn frequent(
    pages: &mut PageSet,
    regs: &mut Regs,
    words: &DecodedWords,
    word: u32,
    pc: u64,
    accesses: &mut u64,
) -> Option<u64>
    requires ram { ram_start ≤ pc }
    requires read { HaveWord pages.old.pages pc word }
    requires few { accesses.old + 1 < 2 ^ 64 }
    ensures goes { IfSome result (λ next. (k : ℕ) →
        CountsSo pages.old.pages pc regs.old (Actor.Hart k) accesses.old accesses.new next pages.new.pages regs.new) }
    ensures kept { regs.new ≡ record regs.old { x = regs.new.x } }
    ensures none { result ≡ None → (pages.new ≡ pages.old) × (regs.new ≡ regs.old) × (accesses.new ≡ accesses.old) }
    ensures count { length pages.new.pages ≡ length pages.old.pages }
    ensures spends { Spends 0 pages.old pages.new }
{
    go_on_decoded(pages, regs, words.find(pc, word)?, pc, accesses)
}

// The same of any word, which is kept decoded from now on.
#[inline(never)]
fn rare(
    pages: &mut PageSet,
    regs: &mut Regs,
    words: &mut DecodedWords,
    number: u8,
    word: u32,
    pc: u64,
) -> Option<Ended>
    requires ram { ram_start ≤ pc }
    requires read { HaveWord pages.old.pages pc word }
    requires room { HasRoom 1 pages.old }
    ensures goes { IfSome result (λ ended. EndsSo pages.old.pages pc regs.old (Actor.Hart number) ended pages.new.pages regs.new) }
    ensures kept { regs.new ≡ record regs.old { x = regs.new.x } }
    ensures none { result ≡ None → (pages.new ≡ pages.old) × (regs.new ≡ regs.old) }
    ensures count { length pages.new.pages ≡ length pages.old.pages }
    ensures spends { Spends 1 pages.old pages.new }
{
    if words.find(pc, word).is_none() {
        words.keep(pc, word);
    }
    go_on(pages, regs, number, word, pc)
}

// Where the next instruction is behind one that ended so, with its access counted.
#[inline(always)]
fn count(ended: Ended, accesses: &mut u64) -> u64
    requires { accesses.old + 1 < 2 ^ 64 }
    ensures next { result ≡ next_after ended }
    ensures count { accesses.new ≡ accesses.old + accesses_in ended }
{
    match ended {
        Ended::Went(next) => next,
        Ended::Accessed(next) => {
            *accesses += 1;
            next
        }
    }
}

// The word at this pc, by the page that the last one was in where it is there too.
#[inline(always)]
fn fetch(pages: &PageSet, code: &mut CodePage, pc: u64) -> Option<u32>
    requires { IsCode code.old pages.now.pages }
    ensures code { IsCode code.new pages.now.pages }
    ensures ram { IfSome result (λ word. ram_start ≤ pc) }
    ensures word { IfSome result (λ word. HaveWord pages.now.pages pc word) }
{
    if let Some(word) = pages.code_word(*code, pc) {
        return Some(word);
    }
    *code = pages.code_page(pc)?;
    pages.code_word(*code, pc)
}

// The hart is at this pc, and has made so many instructions since its pc and its count were what they are.
#[inline(always)]
fn settle(regs: &mut Regs, pc: u64, done: u64)
    ensures { regs.new ≡ counted done pc regs.old }
{
    regs.pc = pc;
    if regs.count <= done {
        regs.count = 32;
        regs.turn = Turn::Look;
    } else {
        regs.count -= done;
    }
}

// Instructions of the hart with these registers, which is to fetch, one after another, so many at most, as long as the next
// one is in RAM and so is what it loads or stores: how many events they are.
#[tactic(auto, using(guest_pages::proofs::Making::no_spends))]
#[inline(never)]
fn run_in_ram(
    pages: &mut PageSet,
    regs: &mut Regs,
    words: &mut DecodedWords,
    number: u8,
    most: u64,
) -> u64
    requires fetching { regs.old.turn ≡ turn.Fetch }
    requires some { 1 ≤ most }
    requires before_look { most ≤ regs.old.count }
    requires few { 2 * most < 2 ^ 64 }
    requires room { HasRoom most pages.old }
    ensures events { Bursts pages.old.pages (fresh regs.old) (Actor.Hart number) result pages.new.pages (fresh regs.new) }
    ensures within { result ≤ 2 * most }
    ensures count { length pages.new.pages ≡ length pages.old.pages }
    ensures spends { Spends result pages.old pages.new }
{
    let mut pc = regs.pc;
    let Some(mut code) = pages.code_page(pc) else {
        return 0;
    };
    let mut left = most;
    let mut accesses = 0;
    while left > 0 {
        let Some(word) = fetch(pages, &mut code, pc) else {
            break;
        };
        pc = match frequent(pages, regs, words, word, pc, &mut accesses) {
            Some(next) => next,
            None => match rare(pages, regs, words, number, word, pc) {
                Some(ended) => count(ended, &mut accesses),
                None => break,
            },
        };
        left -= 1;
    }
    settle(regs, pc, most - left);
    most - left + accesses
}

/// Instructions of the hart of this number in RAM, one after another, up to its next look and as long as the next one is in RAM
/// and so is what it loads or stores: how many events they are, no more than are left.
#[inline]
pub fn run_burst(
    pages: &mut PageSet,
    hart: &mut Hart,
    words: &mut DecodedWords,
    number: u8,
    left: u64,
) -> u64
    requires { HasRoom left pages.old }
    ensures events { Bursts pages.old.pages hart.old (Actor.Hart number) result pages.new.pages hart.new }
    ensures within { result ≤ left }
    ensures count { length pages.new.pages ≡ length pages.old.pages }
    ensures spends { Spends result pages.old pages.new }
{
    if !hart.fetches() {
        return 0;
    }
    let regs = hart.regs_mut();
    let most = regs.count.min(left / 2);
    if most == 0 {
        return 0;
    }
    run_in_ram(pages, regs, words, number, most)
}
