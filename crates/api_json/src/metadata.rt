// PUT and PATCH /mmds
use crate::levels::{Form, Together};

/// Any object: what is asked of its numbers is the store's to say.
pub static METADATA: Form<'static> = Form {
    levels: &[],
    together: Together::Free,
};
