// What a running balloon tells.
ghost use Rattle.std.specs.Prelude.{◌≡◌, map, IfOk, OnOk};
ghost use Rattle.serde_json.specs.Data.{object};
ghost use Rattle.serde_json.specs.View.{view, members_view};
ghost use Rattle.vm_config.specs.Statistics as statistics;
ghost use Rattle.vm_config.specs.Numbers.{numbered, row_of, with_number};

use serde_json::{Map, Value};
use std::alloc::{AllocError, Global};

const PAGES_OF_MIB: u32 = 256;

/// What a running balloon tells, beside what is configured of it.
#[derive(Clone, Copy, Drop)]
pub struct Statistics {
    /// How many pages of 4,096 bytes the guest is to give (VIRTIO 1.2, 5.5.4).
    pub target_pages: u32,
    /// How many it gave, as its driver says there.
    pub actual_pages: u32,
    /// What its driver told last (5.5.6.3), by the tag of each: tag 0, memory that was swapped in, in bytes.
    pub swap_in: Option<u64>,
    /// Tag 1: memory that was swapped out, in bytes.
    pub swap_out: Option<u64>,
    /// Tag 2: page faults that asked a disk.
    pub major_faults: Option<u64>,
    /// Tag 3: page faults that didn't.
    pub minor_faults: Option<u64>,
    /// Tag 4: memory that nothing uses, in bytes.
    pub free_memory: Option<u64>,
    /// Tag 5: all memory, in bytes.
    pub total_memory: Option<u64>,
    /// Tag 6: memory that could be used without swapping, in bytes.
    pub available_memory: Option<u64>,
    /// Tag 7: memory that holds what disks have, in bytes.
    pub disk_caches: Option<u64>,
    /// Tag 8: huge pages that were allocated.
    pub hugetlb_allocations: Option<u64>,
    /// Tag 9: huge pages that couldn't be.
    pub hugetlb_failures: Option<u64>,
}

/// A name with its number, if it has one.
type Row = (&'static str, Option<u64>);

// In the byte order of their names.
fn rows_of(amount_mib: u64, told: &Statistics) -> [Row; 14]
    ensures { map row_of result ≡ statistics.rows_of amount_mib told.now }
{
    [
        (
            "actual_mib",
            Some((told.actual_pages / PAGES_OF_MIB) as u64),
        ),
        ("actual_pages", Some(told.actual_pages as u64)),
        ("available_memory", told.available_memory),
        ("disk_caches", told.disk_caches),
        ("free_memory", told.free_memory),
        ("hugetlb_allocations", told.hugetlb_allocations),
        ("hugetlb_failures", told.hugetlb_failures),
        ("major_faults", told.major_faults),
        ("minor_faults", told.minor_faults),
        ("swap_in", told.swap_in),
        ("swap_out", told.swap_out),
        ("target_mib", Some(amount_mib)),
        ("target_pages", Some(told.target_pages as u64)),
        ("total_memory", told.total_memory),
    ]
}

fn add_number(
    alloc: Global,
    members: &mut Map<String, Value>,
    name: &str,
    number: Option<u64>,
) -> Result<(), AllocError>
    ensures { OnOk result (members_view members.new.entries
        ≡ with_number name.now number (members_view members.old.entries)) }
{
    let Some(n) = number else {
        return Ok(());
    };
    drop(members.insert(String::from_str(alloc, name)?, Value::from(n))?);
    Ok(())
}

fn members_of(alloc: Global, rows: &[Row]) -> Result<Map<String, Value>, AllocError>
    ensures { IfOk result (λ members. members_view members.entries ≡ numbered (map row_of rows.now)) }
{
    let mut members = Map::new(alloc);
    for row in rows {
        add_number(alloc, &mut members, row.0, row.1)?;
    }
    Ok(members)
}

/// What a balloon of this amount tells.
pub fn statistics_value(
    alloc: Global,
    amount_mib: u64,
    told: &Statistics,
) -> Result<Value, AllocError>
    ensures { IfOk result (λ v. view v ≡ statistics.statistics amount_mib told.now) }
{
    let rows = rows_of(amount_mib, told);
    let members = members_of(alloc, &rows)?;
    Ok(Value::Object(members))
}
