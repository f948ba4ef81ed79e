// Words of instructions, of which most are in the page of the one before.
ghost use Rattle.std.specs.Prelude.{◌≡◌, ◌≢◌, ◌≤◌, ℕ, IfSome, MatchOption, false, length, Some};
ghost use Rattle.vm_types.specs.declared.ids.ActorId.{ActorId as Actor};
ghost use Rattle.vm_types.specs.declared.ids.PlaceId.{PlaceId};
ghost use Rattle.guest_memory.specs.Ram.{ram_start};
ghost use Rattle.guest_memory.specs.Route.{page_of};
ghost use Rattle.guest_pages.specs.Made.{is_made};
ghost use Rattle.guest_pages.specs.Pages.{flat_of};
ghost use Rattle.rv_rows.specs.declared.memory.Width.{Width};

use super::PageSet;
use guest_memory::RAM_START;
use vm_types::GuestAddr;

/// A page that has instructions: its number, and the address of its first byte.
#[derive(Clone, Copy, Drop)]
pub struct CodePage {
    pub number: usize,
    pub start: GuestAddr,
}

impl PageSet {
    ghost use Rattle.guest_pages.specs.Code.{IsCode};
    ghost use Rattle.guest_pages.specs.Words.{read_of, read_reply, served};

    /// The page that has all four bytes of the word at an address, or `None` where none has, or that one isn't made.
    #[inline]
    pub fn code_page(&self, at: GuestAddr) -> Option<CodePage>
        ensures code { IfSome result (λ code. IsCode code self.now.pages) }
        ensures page { MatchOption result
            ((i : ℕ) → page_of (length (flat_of self.now.pages).bytes) at 4 ≡ PlaceId.Page i → is_made self.now.pages i ≡ false)
            (λ code. page_of (length (flat_of self.now.pages).bytes) at 4 ≡ PlaceId.Page code.number) }
    {
        let _pages = &self.pages;
        let number = self.find(at, 4)?;
        if !self.is_made(number) {
            return None;
        }
        Some(CodePage {
            number,
            start: RAM_START + 4096 * number as u64,
        })
    }

    /// The word at an address in this page, the lowest byte first, or `None` where the page hasn't all four bytes of it.
    #[inline(always)]
    pub fn code_word(&self, code: CodePage, at: GuestAddr) -> Option<u32>
        requires { IsCode code self.now.pages }
        ensures ram { IfSome result (λ word. ram_start ≤ at) }
        ensures word { IfSome result (λ word. (actor : Actor) →
            read_reply Width.Word (Some word) ≡ (served self.now.pages actor (read_of Width.Word at)).0) }
        ensures page { MatchOption result
            (page_of (length (flat_of self.now.pages).bytes) at 4 ≢ PlaceId.Page code.number)
            (λ word. page_of (length (flat_of self.now.pages).bytes) at 4 ≡ PlaceId.Page code.number) }
    {
        let offset = at.wrapping_sub(code.start);
        if offset > 4092 {
            return None;
        }
        Some(self.pages[code.number].word_at(offset as usize))
    }
}
