//! Words that stand in tables.
ghost use Rattle.std.specs.Prelude.{◌≡◌, map};
ghost use Rattle.aoe_script.specs.Tables.{listed};

/// What a table says of a word.
pub(crate) fn listed<T: Copy>(mut table: &[(&[u8], T)], word: &[u8]) -> Option<T>
    ensures { result ≡ listed word.now (map (λ row. (row.0.now, row.1)) table.entry.now) }
{
    'rows: while let [row, rest @ ..] = table {
        if word == row.0 {
            return Some(row.1);
        }
        table = rest;
    }
    None
}
