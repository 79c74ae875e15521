// Is a table good.
ghost use Rattle.std.specs.Prelude.{◌≡◌};
ghost use Rattle.variables.specs.Tables.{checked};
ghost use Rattle.nosgoludd.specs.Faces.{check_face};

// The refusal's number, 0 where the table is good; how many records; the place, counted in the table.
#[repr(C)]
#[derive(Clone, Copy)]
pub struct NosChecked {
    pub number: u32,
    pub records: u32,
    pub place: usize,
}

// No `From`, which knows no table: that 32 bits hold the number of records is a fact about a table's check.
pub fn nos_check_table(table: &[u8]) -> NosChecked
    ensures { result ≡ check_face (checked table.now) }
{
    let answer = variables::check_table(table);
    match answer {
        Ok(count) => NosChecked {
            number: 0,
            records: count as u32,
            place: 0,
        },
        Err(bad) => NosChecked {
            number: u32::from(bad.why.number()),
            records: 0,
            place: bad.at.0,
        },
    }
}
