// What a case gives.
use crate::words::{number, numbers_in};
use sbi_calls::SbiReturn;

/// A word, the values of its two registers or of memory, and its own address.
#[derive(Clone, Copy, Drop)]
pub struct Given {
    pub word: u32,
    pub a: u64,
    pub b: u64,
    pub pc: u64,
}

/// `WORD A B PC`, in hexadecimal digits. What is left out is 0.
pub fn given_from(case: &str) -> Option<Given> {
    let given = numbers_in(case, ' ')?;
    Some(Given {
        word: u32::try_from(given.a).ok()?,
        a: given.b,
        b: given.c,
        pc: given.d,
    })
}

/// The registers of a call, and what the board returns, if it does.
#[derive(Clone, Copy, Drop)]
pub struct Called {
    pub a7: u64,
    pub a6: u64,
    pub a0: u64,
    pub a1: u64,
    pub a2: u64,
    pub returned: Option<SbiReturn>,
}

/// `A7 A6 A0 A1 A2 ERROR VALUE`, in hexadecimal digits. What is left out is 0; without an error nothing is returned.
pub fn called_from(case: &str) -> Option<Called> {
    let mut parts = case.split(' ');
    Some(Called {
        a7: number(parts.next())?,
        a6: number(parts.next())?,
        a0: number(parts.next())?,
        a1: number(parts.next())?,
        a2: number(parts.next())?,
        returned: match parts.next() {
            Some(error) => Some(SbiReturn {
                error: number(Some(error))?,
                value: number(parts.next())?,
            }),
            None => None,
        },
    })
}
