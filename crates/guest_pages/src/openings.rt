// How pages stood when their histories began.

use crate::page::Page;
use std::marker::Brand;
use vm_types::Openings;

// The call that begins the histories says how they stood.
impl Openings<Page> for Brand {
    ghost use Rattle.guest_pages.specs.Pages.{new_page};

    ghost opening = { λ _. new_page 0 };
}
