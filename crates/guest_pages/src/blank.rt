// Memory for pages that aren't made yet.
ghost use Rattle.std.specs.Prelude.{◌≡◌, IfOk};
ghost use Rattle.guest_pages.specs.Pages.{made_page};

use crate::page::Page;
use std::alloc::{AllocError, Global};

/// Memory for one page: zeros, with nothing reserved and no mark.
#[derive(Drop)]
pub struct Blank {
    page: Page,
    ghost zeros: { page ≡ made_page 0 },
}

impl Blank {
    /// Memory of its own, or an error where there is none.
    pub fn new(alloc: Global) -> Result<Blank, AllocError>
        ensures { IfOk result (λ blank. blank.page ≡ made_page 0) }
    {
        let Ok(page) = Page::new(alloc, 0) else {
            return Err(AllocError);
        };
        Ok(Blank { page })
    }

    /// A page in which nothing was left.
    pub fn of(page: Page) -> Blank
        requires { page ≡ made_page page.number }
    {
        let mut page = page;
        page.renumber(0);
        Blank { page }
    }

    /// The page of this number.
    pub fn into_page(self, number: u32) -> Page
        ensures { result ≡ made_page number }
    {
        let mut page = self.page;
        page.renumber(number);
        page
    }
}
