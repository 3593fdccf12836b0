// Days by the Gregorian calendar, counted from 1 January of year 0, whose cycle of 400 years has 146,097.
#![tactic(auto)]

ghost use Rattle.std.specs.Prelude.{◌≡◌, true, ◌+◌, ◌-◌, ◌*◌, ◌≤◌, ◌<◌, suc};
ghost use Rattle.model_times.specs.Days.{days_before_year, year_days, days_before_month, days_before};
ghost use Rattle.times_calendar.specs.Table.{keeps_rule};
ghost use Rattle.times_calendar.specs.Dates.{YearIs, DateIn, DateIs};

use frame_stamp::month_days;

// The days before each year of the cycle, from a year divisible by 400 on.
const YEARS: [u32; 400] = [
    0, 366, 731, 1_096, 1_461, 1_827, 2_192, 2_557, 2_922, 3_288, 3_653, 4_018, 4_383, 4_749,
    5_114, 5_479, 5_844, 6_210, 6_575, 6_940, 7_305, 7_671, 8_036, 8_401, 8_766, 9_132, 9_497,
    9_862, 10_227, 10_593, 10_958, 11_323, 11_688, 12_054, 12_419, 12_784, 13_149, 13_515, 13_880,
    14_245, 14_610, 14_976, 15_341, 15_706, 16_071, 16_437, 16_802, 17_167, 17_532, 17_898, 18_263,
    18_628, 18_993, 19_359, 19_724, 20_089, 20_454, 20_820, 21_185, 21_550, 21_915, 22_281, 22_646,
    23_011, 23_376, 23_742, 24_107, 24_472, 24_837, 25_203, 25_568, 25_933, 26_298, 26_664, 27_029,
    27_394, 27_759, 28_125, 28_490, 28_855, 29_220, 29_586, 29_951, 30_316, 30_681, 31_047, 31_412,
    31_777, 32_142, 32_508, 32_873, 33_238, 33_603, 33_969, 34_334, 34_699, 35_064, 35_430, 35_795,
    36_160, 36_525, 36_890, 37_255, 37_620, 37_985, 38_351, 38_716, 39_081, 39_446, 39_812, 40_177,
    40_542, 40_907, 41_273, 41_638, 42_003, 42_368, 42_734, 43_099, 43_464, 43_829, 44_195, 44_560,
    44_925, 45_290, 45_656, 46_021, 46_386, 46_751, 47_117, 47_482, 47_847, 48_212, 48_578, 48_943,
    49_308, 49_673, 50_039, 50_404, 50_769, 51_134, 51_500, 51_865, 52_230, 52_595, 52_961, 53_326,
    53_691, 54_056, 54_422, 54_787, 55_152, 55_517, 55_883, 56_248, 56_613, 56_978, 57_344, 57_709,
    58_074, 58_439, 58_805, 59_170, 59_535, 59_900, 60_266, 60_631, 60_996, 61_361, 61_727, 62_092,
    62_457, 62_822, 63_188, 63_553, 63_918, 64_283, 64_649, 65_014, 65_379, 65_744, 66_110, 66_475,
    66_840, 67_205, 67_571, 67_936, 68_301, 68_666, 69_032, 69_397, 69_762, 70_127, 70_493, 70_858,
    71_223, 71_588, 71_954, 72_319, 72_684, 73_049, 73_414, 73_779, 74_144, 74_509, 74_875, 75_240,
    75_605, 75_970, 76_336, 76_701, 77_066, 77_431, 77_797, 78_162, 78_527, 78_892, 79_258, 79_623,
    79_988, 80_353, 80_719, 81_084, 81_449, 81_814, 82_180, 82_545, 82_910, 83_275, 83_641, 84_006,
    84_371, 84_736, 85_102, 85_467, 85_832, 86_197, 86_563, 86_928, 87_293, 87_658, 88_024, 88_389,
    88_754, 89_119, 89_485, 89_850, 90_215, 90_580, 90_946, 91_311, 91_676, 92_041, 92_407, 92_772,
    93_137, 93_502, 93_868, 94_233, 94_598, 94_963, 95_329, 95_694, 96_059, 96_424, 96_790, 97_155,
    97_520, 97_885, 98_251, 98_616, 98_981, 99_346, 99_712, 100_077, 100_442, 100_807, 101_173,
    101_538, 101_903, 102_268, 102_634, 102_999, 103_364, 103_729, 104_095, 104_460, 104_825,
    105_190, 105_556, 105_921, 106_286, 106_651, 107_017, 107_382, 107_747, 108_112, 108_478,
    108_843, 109_208, 109_573, 109_938, 110_303, 110_668, 111_033, 111_399, 111_764, 112_129,
    112_494, 112_860, 113_225, 113_590, 113_955, 114_321, 114_686, 115_051, 115_416, 115_782,
    116_147, 116_512, 116_877, 117_243, 117_608, 117_973, 118_338, 118_704, 119_069, 119_434,
    119_799, 120_165, 120_530, 120_895, 121_260, 121_626, 121_991, 122_356, 122_721, 123_087,
    123_452, 123_817, 124_182, 124_548, 124_913, 125_278, 125_643, 126_009, 126_374, 126_739,
    127_104, 127_470, 127_835, 128_200, 128_565, 128_931, 129_296, 129_661, 130_026, 130_392,
    130_757, 131_122, 131_487, 131_853, 132_218, 132_583, 132_948, 133_314, 133_679, 134_044,
    134_409, 134_775, 135_140, 135_505, 135_870, 136_236, 136_601, 136_966, 137_331, 137_697,
    138_062, 138_427, 138_792, 139_158, 139_523, 139_888, 140_253, 140_619, 140_984, 141_349,
    141_714, 142_080, 142_445, 142_810, 143_175, 143_541, 143_906, 144_271, 144_636, 145_002,
    145_367, 145_732,
];

// The table, with its leap rule. It is lent: as a value it would be copied to the stack at each use.
fn years() -> &'static [u32; 400]
    ensures { keeps_rule 146097 0 0 result.now ≡ true }
{
    &YEARS
}

// The days before 1 January of a year.
pub fn days_before_year(year: u32) -> u64
    ensures is { result ≡ days_before_year year }
    ensures most { result ≤ 366 * year }
{
    let years = years();
    u64::from(year / 400) * 146_097 + u64::from(years[(year % 400) as usize])
}

// A year of the cycle, and the days of that year before a day.
#[derive(Clone, Copy)]
pub struct YearDay {
    pub year: u32,
    pub day: u32,
}

// The year of the cycle that day r of the cycle lies in. No year has fewer than 365 days, and the leap days before a year are fewer than a year: so it is the year
// that r / 365 gives, or the one before it.
fn year_in_cycle(r: u32) -> YearDay
    requires { r < 146097 }
    ensures { YearIs r result }
{
    let years = years();
    let guess = (r / 365).min(399);
    if years[guess as usize] <= r {
        return YearDay {
            year: guess,
            day: r - years[guess as usize],
        };
    }
    let year = guess - 1;
    YearDay {
        year,
        day: r - years[year as usize],
    }
}

// The days of a year before a month.
pub fn days_before_month(year: u32, month: u32) -> u64
    ensures is { result ≡ days_before_month year month }
    ensures most { result ≤ 31 * month }
{
    let mut days: u64 = 0;
    for earlier in 1..month {
        days += u64::from(month_days(year, earlier));
    }
    days
}

// The days before a date.
#[tactic(auto, unfolding(model_times::specs::Days::days_before))]
pub fn days_before(year: u32, month: u32, day: u32) -> u64
    ensures is { result ≡ days_before year month day }
    ensures most { result ≤ 366 * year + 31 * month + day }
{
    days_before_year(year) + days_before_month(year, month) + u64::from(day.saturating_sub(1))
}

// A date that exists.
#[derive(Clone, Copy)]
pub struct Date {
    pub year: u32,
    pub month: u32,
    pub day: u32,
}

// The date of a day of a year, counted from 0.
fn date_in_year(year: u32, day: u32) -> Date
    requires { day < year_days year }
    ensures { DateIn year day result }
{
    let mut left = day;
    for month in 1..12 {
        let days = month_days(year, month);
        if left < days {
            return Date {
                year,
                month,
                day: left + 1,
            };
        }
        left -= days;
    }
    Date {
        year,
        month: 12,
        day: left + 1,
    }
}

// The date of a day, to the end of 9999.
pub fn date_of(day: u64) -> Date
    requires { day < 3652425 }
    ensures { DateIs day result }
{
    let in_cycle = year_in_cycle((day % 146_097) as u32);
    date_in_year((day / 146_097) as u32 * 400 + in_cycle.year, in_cycle.day)
}
