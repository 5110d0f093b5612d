// The tidal constituents of the display, and the height that each adds.

// How many constituents are summed.
pub(crate) const COUNT: usize = 30;

// How many heights each has for a turn of its phase.
pub(crate) const PARTS: usize = 16;

// A wave of one speed. A phase counts in 2^-32 of a turn; the speed is what half an hour adds to it.
#[derive(Clone, Copy)]
pub(crate) struct Constituent {
    pub(crate) name: &'static str,
    pub(crate) speed: u32,
    pub(crate) start: u32,
    // Half the range of the wave, in millimetres.
    pub(crate) amplitude: i32,
}

// Name, speed, phase half an hour before the first height, and amplitude.
const TABLE: [(&str, u32, u32, i32); COUNT] = [
    ("M2", 0x0A4E_3293, 0x9D27_D27D, 1810),
    ("S2", 0x0AAA_AAAB, 0xBA4F_A4FA, 612),
    ("N2", 0x0A1C_A5BE, 0x905B_05B0, 345),
    ("K2", 0x0AB2_249F, 0xB82D_82D8, 168),
    ("NU2", 0x0A23_4757, 0x8B60_B60B, 66),
    ("L2", 0x0A7F_BF6E, 0xA444_4444, 58),
    ("MU2", 0x09F1_BA7B, 0xAAAA_AAAB, 50),
    ("2N2", 0x09EB_18E2, 0x80B6_0B61, 44),
    ("T2", 0x0AA6_EDBC, 0xB1C7_1C72, 36),
    ("LAM2", 0x0A79_1DD5, 0x96C1_6C17, 22),
    ("R2", 0x0AAE_6799, 0x36C1_6C17, 6),
    ("2SM2", 0x0B07_22C2, 0x65B0_5B06, 12),
    ("K1", 0x0559_124F, 0x47D2_7D28, 94),
    ("O1", 0x04F5_2044, 0xFC71_C71C, 71),
    ("P1", 0x0551_985B, 0x4444_4444, 30),
    ("Q1", 0x04C3_936E, 0xDB05_B05B, 21),
    ("J1", 0x058A_9F28, 0x5C71_C71C, 6),
    ("M1", 0x0527_8574, 0x2EEE_EEEF, 5),
    ("OO1", 0x05BD_044F, 0x78E3_8E39, 4),
    ("RHO", 0x04CA_350D, 0xD555_5555, 4),
    ("2Q1", 0x0492_0693, 0xC7D2_7D28, 3),
    ("S1", 0x0555_5555, 0x6C16_C16C, 8),
    ("M4", 0x149C_6532, 0x3E93_E93F, 88),
    ("MS4", 0x14F8_DD3E, 0x6444_4444, 57),
    ("MN4", 0x146A_D845, 0x2CCC_CCCD, 31),
    ("S4", 0x1555_5555, 0x949F_49F5, 8),
    ("M6", 0x1EEA_97E9, 0xE16C_16C1, 33),
    ("MK3", 0x0FA7_44E2, 0x149F_49F5, 9),
    ("M3", 0x0F75_4BF4, 0x82D8_2D83, 12),
    ("2MK3", 0x0F43_52DC, 0x07D2_7D28, 7),
];

// The cosine in the middle of each sixteenth of a turn, in thousandths.
const COSINES: [i32; PARTS] = [
    981, 831, 556, 195, -195, -556, -831, -981, -981, -831, -556, -195, 195, 556, 831, 981,
];

impl From<(&'static str, u32, u32, i32)> for Constituent {
    fn from((name, speed, start, amplitude): (&'static str, u32, u32, i32)) -> Constituent {
        Constituent {
            name,
            speed,
            start,
            amplitude,
        }
    }
}

// All constituents, the first with number 0.
pub(crate) fn constituents() -> [Constituent; COUNT] {
    TABLE.map(Constituent::from)
}

impl Constituent {
    // The height that it adds where its phase has this cosine, in millimetres.
    fn height(self, cosine: i32) -> i32 {
        self.amplitude.wrapping_mul(cosine) / 1000
    }

    // The heights that it adds in the sixteenths of its turn.
    pub(crate) fn heights(self) -> [i32; PARTS] {
        COSINES.map(|cosine| self.height(cosine))
    }

    // Its phase after so many half hours.
    pub(crate) fn phase(self, half_hours: u32) -> u32 {
        self.start.wrapping_add(self.speed.wrapping_mul(half_hours))
    }

    // The height that it adds after so many half hours.
    pub(crate) fn height_after(self, half_hours: u32) -> i32 {
        self.height(COSINES[(self.phase(half_hours) >> 28) as usize])
    }
}
