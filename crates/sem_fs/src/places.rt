// The places of extents: the offers of the server, and the selectors of the clients.
ghost use Rattle.std.specs.Prelude.{◌≡◌, ◌<◌, ◌≤◌};
ghost use Rattle.sem_files.specs.Compiled.{extent_number, opened_at, given_at};

// The number of an extent of a file among all extents.
pub fn number_of_extent(file: u8, extent: u8) -> u8
    requires file { file ≤ 15 }
    requires extent { extent < 4 }
    ensures { result ≡ extent_number file extent }
{
    4 * file + extent
}

// The selector of a client for an extent of the file that a handle has open.
pub fn opened_selector(handle: u8, extent: u8) -> u8
    requires handle { handle ≤ 15 }
    requires extent { extent < 4 }
    ensures { result ≡ opened_at handle extent }
{
    1 + (4 * handle + extent)
}

// The selector of a client for an extent of the file given to it under a number.
pub fn given_selector(number: u8, extent: u8) -> u8
    requires number { number ≤ 15 }
    requires extent { extent < 4 }
    ensures { result ≡ given_at number extent }
{
    128 + (4 * number + extent)
}
