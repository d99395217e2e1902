// The sample sizes and rates of table 3-1 of document 004.
ghost use Rattle.std.specs.Prelude.{◌≡◌};
ghost use Rattle.sfdu_samples.specs.Rates.{is_listed};

// A row of table 3-1.
#[derive(Clone, Copy)]
pub struct Listed {
    pub rate: u32,
    pub size: u32,
}

// The rows in the table's order.
const LISTED: [Listed; 36] = [
    Listed { rate: 1, size: 8 },
    Listed { rate: 2, size: 8 },
    Listed { rate: 4, size: 8 },
    Listed { rate: 8, size: 8 },
    Listed { rate: 16, size: 8 },
    Listed { rate: 25, size: 8 },
    Listed { rate: 50, size: 8 },
    Listed { rate: 100, size: 8 },
    Listed { rate: 1, size: 16 },
    Listed { rate: 2, size: 16 },
    Listed { rate: 4, size: 16 },
    Listed { rate: 8, size: 16 },
    Listed { rate: 16, size: 16 },
    Listed { rate: 25, size: 16 },
    Listed { rate: 50, size: 16 },
    Listed {
        rate: 100,
        size: 16,
    },
    Listed { rate: 250, size: 1 },
    Listed { rate: 500, size: 1 },
    Listed {
        rate: 1000,
        size: 1,
    },
    Listed {
        rate: 2000,
        size: 1,
    },
    Listed {
        rate: 4000,
        size: 1,
    },
    Listed { rate: 250, size: 2 },
    Listed { rate: 500, size: 2 },
    Listed {
        rate: 1000,
        size: 2,
    },
    Listed {
        rate: 2000,
        size: 2,
    },
    Listed {
        rate: 4000,
        size: 2,
    },
    Listed { rate: 250, size: 4 },
    Listed { rate: 500, size: 4 },
    Listed {
        rate: 1000,
        size: 4,
    },
    Listed {
        rate: 2000,
        size: 4,
    },
    Listed { rate: 250, size: 8 },
    Listed { rate: 500, size: 8 },
    Listed {
        rate: 1000,
        size: 8,
    },
    Listed {
        rate: 8000,
        size: 1,
    },
    Listed {
        rate: 16000,
        size: 1,
    },
    Listed {
        rate: 8000,
        size: 2,
    },
];

// Whether table 3-1 has this size (in bits) and this rate (in thousand samples per second).
pub fn is_listed(size: u32, rate: u32) -> bool
    ensures { result ≡ is_listed size rate }
{
    LISTED
        .iter()
        .any(|row| (row.size == size) & (row.rate == rate))
}
