//! Bytes and numbers, written over bytes from a place on.

ghost use Rattle.std.specs.Prelude.{◌≡◌, ◌+◌, ◌/◌, ◌%◌, ◌<◌, ◌≤◌, ◌++◌, ◌∷◌, [], length, slice_index, take};
ghost use Rattle.std.specs.Fmt.{decimal};
ghost use Rattle.etcs_packet_text.specs.Show.{hex_digits};

use super::fronts::Front;
use crate::text::hex_digit_of;

/// Writes bytes at a place, and returns where they end.
#[inline]
pub(crate) fn put_bytes(place: &mut [u8], at: usize, bytes: &[u8]) -> usize
    requires { at + length bytes.now ≤ length place.old }
    ensures len { length place.new ≡ length place.old }
    ensures end { result ≡ at + length bytes.now }
    ensures bytes { take result place.new ≡ take at place.old ++ bytes.now }
{
    let end = at + bytes.len();
    place[at..end].copy_from_slice(bytes);
    end
}

/// Writes a constant count of bytes at a place, from a copy that can't be where they are written, and returns where they
/// end.
#[inline(always)]
pub(crate) fn put_array<const N: usize>(place: &mut [u8], at: usize, bytes: &[u8; N]) -> usize
    requires { at + length bytes.now ≤ length place.old }
    ensures len { length place.new ≡ length place.old }
    ensures end { result ≡ at + length bytes.now }
    ensures bytes { take result place.new ≡ take at place.old ++ bytes.now }
{
    let copy = *bytes;
    put_bytes(place, at, &copy)
}

/// Writes a front at a place, over 32 bytes, and returns where it ends.
#[inline]
pub(crate) fn put_front(place: &mut [u8], at: usize, front: Front) -> usize
    requires room { at + 32 ≤ length place.old }
    requires len { front.len ≤ 32 }
    ensures len { length place.new ≡ length place.old }
    ensures end { result ≡ at + front.len }
    ensures bytes { take result place.new ≡ take at place.old ++ take front.len front.bytes }
{
    place[at..at + 32].copy_from_slice(&front.bytes);
    at + front.len
}

/// Writes the digits of a number and a byte at a place, and returns where they end.
#[inline(always)]
pub(crate) fn put_number(place: &mut [u8], at: usize, number: u64, end: u8) -> usize
    requires { at + 24 ≤ length place.old }
    ensures len { length place.new ≡ length place.old }
    ensures end { result ≡ at + length (decimal number) + 1 }
    ensures most { result ≤ at + 21 }
    ensures bytes { take result place.new ≡ take at place.old ++ (decimal number ++ end ∷ []) }
{
    let after = put_decimal(place, at, number);
    place[after] = end;
    after + 1
}

/// Writes the digits of a number between bytes at a place, and returns where they end.
#[inline(always)]
pub(crate) fn put_between(
    place: &mut [u8],
    at: usize,
    front: &[u8],
    number: u64,
    back: &[u8],
) -> usize
    requires { at + length front.now + length back.now + 23 ≤ length place.old }
    ensures len { length place.new ≡ length place.old }
    ensures most { result ≤ at + length front.now + length back.now + 20 }
    ensures bytes { take result place.new ≡ take at place.old ++ (front.now ++ (decimal number ++ back.now)) }
{
    let end = put_bytes(place, at, front);
    let end = put_decimal(place, end, number);
    put_bytes(place, end, back)
}

/// As [`put_between`], between constant counts of bytes.
#[inline(always)]
pub(crate) fn put_around<const F: usize, const B: usize>(
    place: &mut [u8],
    at: usize,
    front: &[u8; F],
    number: u64,
    back: &[u8; B],
) -> usize
    requires { at + length front.now + length back.now + 23 ≤ length place.old }
    ensures len { length place.new ≡ length place.old }
    ensures most { result ≤ at + length front.now + length back.now + 20 }
    ensures bytes { take result place.new ≡ take at place.old ++ (front.now ++ (decimal number ++ back.now)) }
{
    let end = put_array(place, at, front);
    let end = put_decimal(place, end, number);
    put_array(place, end, back)
}

/// Writes the digits of a number at a place, and returns where they end. After them it writes at most three bytes more.
#[inline(always)]
pub(crate) fn put_decimal(place: &mut [u8], at: usize, number: u64) -> usize
    requires { at + length (decimal number) + 3 ≤ length place.old }
    ensures len { length place.new ≡ length place.old }
    ensures end { result ≡ at + length (decimal number) }
    ensures bytes { take result place.new ≡ take at place.old ++ decimal number }
{
    if number < 10 {
        place[at] = b'0' + number as u8;
        return at + 1;
    }
    if number < 1000 {
        return put_short(place, at, number);
    }
    put_long(place, at, number)
}

/// Writes the digits of a number below a thousand, and blanks and their count after them.
#[inline]
fn put_short(place: &mut [u8], at: usize, number: u64) -> usize
    requires room { at + 4 ≤ length place.old }
    requires small { number < 1000 }
    ensures len { length place.new ≡ length place.old }
    ensures end { result ≡ at + length (decimal number) }
    ensures bytes { take result place.new ≡ take at place.old ++ decimal number }
{
    let digits = short_digits(number);
    place[at..at + 4].copy_from_slice(&digits);
    at + usize::from(digits[3] - b'0')
}

/// The digits of a number below a thousand, blanks up to three, and how many digits they are.
#[inline]
fn short_digits(number: u64) -> [u8; 4]
    requires { number < 1000 }
    ensures count { slice_index result 3 ≡ 48 + length (decimal number) }
    ensures few { length (decimal number) ≤ 3 }
    ensures first { take (length (decimal number)) result ≡ decimal number }
{
    SHORT[number as usize]
}

/// Writes the digits of a number of a thousand or more.
#[inline(never)]
fn put_long(place: &mut [u8], at: usize, number: u64) -> usize
    requires room { at + length (decimal number) + 3 ≤ length place.old }
    requires least { 1000 ≤ number }
    ensures len { length place.new ≡ length place.old }
    ensures end { result ≡ at + length (decimal number) }
    ensures bytes { take result place.new ≡ take at place.old ++ decimal number }
{
    if number < 100_000 {
        return put_thousands(place, at, number);
    }
    put_longer(place, at, number)
}

/// Writes the digits of a number of a thousand or more and below a hundred thousand.
#[inline(always)]
fn put_thousands(place: &mut [u8], at: usize, number: u64) -> usize
    requires room { at + length (decimal number) + 3 ≤ length place.old }
    requires least { 1000 ≤ number }
    requires small { number < 100000 }
    ensures len { length place.new ≡ length place.old }
    ensures end { result ≡ at + length (decimal number) }
    ensures bytes { take result place.new ≡ take at place.old ++ decimal number }
{
    let end = put_short(place, at, number / 100);
    put_two_digits(place, end, number % 100)
}

/// Writes the digits of a number, as `put_decimal` does, four of them at a time.
#[inline(never)]
fn put_longer(place: &mut [u8], at: usize, number: u64) -> usize
    requires { at + length (decimal number) + 3 ≤ length place.old }
    ensures len { length place.new ≡ length place.old }
    ensures end { result ≡ at + length (decimal number) }
    ensures bytes { take result place.new ≡ take at place.old ++ decimal number }
{
    if number < 1000 {
        return put_short(place, at, number);
    }
    if number < 100_000 {
        return put_thousands(place, at, number);
    }
    let end = put_longer(place, at, number / 10_000);
    let end = put_two_digits(place, end, number / 100 % 100);
    put_two_digits(place, end, number % 100)
}

/// Writes the two digits of a number below a hundred.
#[inline(always)]
fn put_two_digits(place: &mut [u8], at: usize, number: u64) -> usize
    requires room { at + 2 ≤ length place.old }
    requires small { number < 100 }
    ensures len { length place.new ≡ length place.old }
    ensures end { result ≡ at + 2 }
    ensures bytes { take result place.new ≡ take at place.old ++ (48 + number / 10) ∷ (48 + number % 10) ∷ [] }
{
    let pair = PAIRS[number as usize];
    place[at] = pair[0];
    place[at + 1] = pair[1];
    at + 2
}

/// The two digits of each number below a hundred.
static PAIRS: [[u8; 2]; 100] = [
    *b"00", *b"01", *b"02", *b"03", *b"04", *b"05", *b"06", *b"07", *b"08", *b"09", *b"10", *b"11",
    *b"12", *b"13", *b"14", *b"15", *b"16", *b"17", *b"18", *b"19", *b"20", *b"21", *b"22", *b"23",
    *b"24", *b"25", *b"26", *b"27", *b"28", *b"29", *b"30", *b"31", *b"32", *b"33", *b"34", *b"35",
    *b"36", *b"37", *b"38", *b"39", *b"40", *b"41", *b"42", *b"43", *b"44", *b"45", *b"46", *b"47",
    *b"48", *b"49", *b"50", *b"51", *b"52", *b"53", *b"54", *b"55", *b"56", *b"57", *b"58", *b"59",
    *b"60", *b"61", *b"62", *b"63", *b"64", *b"65", *b"66", *b"67", *b"68", *b"69", *b"70", *b"71",
    *b"72", *b"73", *b"74", *b"75", *b"76", *b"77", *b"78", *b"79", *b"80", *b"81", *b"82", *b"83",
    *b"84", *b"85", *b"86", *b"87", *b"88", *b"89", *b"90", *b"91", *b"92", *b"93", *b"94", *b"95",
    *b"96", *b"97", *b"98", *b"99",
];

/// The digits of each number below a thousand, blanks up to three, and how many digits they are.
static SHORT: [[u8; 4]; 1000] = [
    *b"0  1", *b"1  1", *b"2  1", *b"3  1", *b"4  1", *b"5  1", *b"6  1", *b"7  1", *b"8  1",
    *b"9  1", *b"10 2", *b"11 2", *b"12 2", *b"13 2", *b"14 2", *b"15 2", *b"16 2", *b"17 2",
    *b"18 2", *b"19 2", *b"20 2", *b"21 2", *b"22 2", *b"23 2", *b"24 2", *b"25 2", *b"26 2",
    *b"27 2", *b"28 2", *b"29 2", *b"30 2", *b"31 2", *b"32 2", *b"33 2", *b"34 2", *b"35 2",
    *b"36 2", *b"37 2", *b"38 2", *b"39 2", *b"40 2", *b"41 2", *b"42 2", *b"43 2", *b"44 2",
    *b"45 2", *b"46 2", *b"47 2", *b"48 2", *b"49 2", *b"50 2", *b"51 2", *b"52 2", *b"53 2",
    *b"54 2", *b"55 2", *b"56 2", *b"57 2", *b"58 2", *b"59 2", *b"60 2", *b"61 2", *b"62 2",
    *b"63 2", *b"64 2", *b"65 2", *b"66 2", *b"67 2", *b"68 2", *b"69 2", *b"70 2", *b"71 2",
    *b"72 2", *b"73 2", *b"74 2", *b"75 2", *b"76 2", *b"77 2", *b"78 2", *b"79 2", *b"80 2",
    *b"81 2", *b"82 2", *b"83 2", *b"84 2", *b"85 2", *b"86 2", *b"87 2", *b"88 2", *b"89 2",
    *b"90 2", *b"91 2", *b"92 2", *b"93 2", *b"94 2", *b"95 2", *b"96 2", *b"97 2", *b"98 2",
    *b"99 2", *b"1003", *b"1013", *b"1023", *b"1033", *b"1043", *b"1053", *b"1063", *b"1073",
    *b"1083", *b"1093", *b"1103", *b"1113", *b"1123", *b"1133", *b"1143", *b"1153", *b"1163",
    *b"1173", *b"1183", *b"1193", *b"1203", *b"1213", *b"1223", *b"1233", *b"1243", *b"1253",
    *b"1263", *b"1273", *b"1283", *b"1293", *b"1303", *b"1313", *b"1323", *b"1333", *b"1343",
    *b"1353", *b"1363", *b"1373", *b"1383", *b"1393", *b"1403", *b"1413", *b"1423", *b"1433",
    *b"1443", *b"1453", *b"1463", *b"1473", *b"1483", *b"1493", *b"1503", *b"1513", *b"1523",
    *b"1533", *b"1543", *b"1553", *b"1563", *b"1573", *b"1583", *b"1593", *b"1603", *b"1613",
    *b"1623", *b"1633", *b"1643", *b"1653", *b"1663", *b"1673", *b"1683", *b"1693", *b"1703",
    *b"1713", *b"1723", *b"1733", *b"1743", *b"1753", *b"1763", *b"1773", *b"1783", *b"1793",
    *b"1803", *b"1813", *b"1823", *b"1833", *b"1843", *b"1853", *b"1863", *b"1873", *b"1883",
    *b"1893", *b"1903", *b"1913", *b"1923", *b"1933", *b"1943", *b"1953", *b"1963", *b"1973",
    *b"1983", *b"1993", *b"2003", *b"2013", *b"2023", *b"2033", *b"2043", *b"2053", *b"2063",
    *b"2073", *b"2083", *b"2093", *b"2103", *b"2113", *b"2123", *b"2133", *b"2143", *b"2153",
    *b"2163", *b"2173", *b"2183", *b"2193", *b"2203", *b"2213", *b"2223", *b"2233", *b"2243",
    *b"2253", *b"2263", *b"2273", *b"2283", *b"2293", *b"2303", *b"2313", *b"2323", *b"2333",
    *b"2343", *b"2353", *b"2363", *b"2373", *b"2383", *b"2393", *b"2403", *b"2413", *b"2423",
    *b"2433", *b"2443", *b"2453", *b"2463", *b"2473", *b"2483", *b"2493", *b"2503", *b"2513",
    *b"2523", *b"2533", *b"2543", *b"2553", *b"2563", *b"2573", *b"2583", *b"2593", *b"2603",
    *b"2613", *b"2623", *b"2633", *b"2643", *b"2653", *b"2663", *b"2673", *b"2683", *b"2693",
    *b"2703", *b"2713", *b"2723", *b"2733", *b"2743", *b"2753", *b"2763", *b"2773", *b"2783",
    *b"2793", *b"2803", *b"2813", *b"2823", *b"2833", *b"2843", *b"2853", *b"2863", *b"2873",
    *b"2883", *b"2893", *b"2903", *b"2913", *b"2923", *b"2933", *b"2943", *b"2953", *b"2963",
    *b"2973", *b"2983", *b"2993", *b"3003", *b"3013", *b"3023", *b"3033", *b"3043", *b"3053",
    *b"3063", *b"3073", *b"3083", *b"3093", *b"3103", *b"3113", *b"3123", *b"3133", *b"3143",
    *b"3153", *b"3163", *b"3173", *b"3183", *b"3193", *b"3203", *b"3213", *b"3223", *b"3233",
    *b"3243", *b"3253", *b"3263", *b"3273", *b"3283", *b"3293", *b"3303", *b"3313", *b"3323",
    *b"3333", *b"3343", *b"3353", *b"3363", *b"3373", *b"3383", *b"3393", *b"3403", *b"3413",
    *b"3423", *b"3433", *b"3443", *b"3453", *b"3463", *b"3473", *b"3483", *b"3493", *b"3503",
    *b"3513", *b"3523", *b"3533", *b"3543", *b"3553", *b"3563", *b"3573", *b"3583", *b"3593",
    *b"3603", *b"3613", *b"3623", *b"3633", *b"3643", *b"3653", *b"3663", *b"3673", *b"3683",
    *b"3693", *b"3703", *b"3713", *b"3723", *b"3733", *b"3743", *b"3753", *b"3763", *b"3773",
    *b"3783", *b"3793", *b"3803", *b"3813", *b"3823", *b"3833", *b"3843", *b"3853", *b"3863",
    *b"3873", *b"3883", *b"3893", *b"3903", *b"3913", *b"3923", *b"3933", *b"3943", *b"3953",
    *b"3963", *b"3973", *b"3983", *b"3993", *b"4003", *b"4013", *b"4023", *b"4033", *b"4043",
    *b"4053", *b"4063", *b"4073", *b"4083", *b"4093", *b"4103", *b"4113", *b"4123", *b"4133",
    *b"4143", *b"4153", *b"4163", *b"4173", *b"4183", *b"4193", *b"4203", *b"4213", *b"4223",
    *b"4233", *b"4243", *b"4253", *b"4263", *b"4273", *b"4283", *b"4293", *b"4303", *b"4313",
    *b"4323", *b"4333", *b"4343", *b"4353", *b"4363", *b"4373", *b"4383", *b"4393", *b"4403",
    *b"4413", *b"4423", *b"4433", *b"4443", *b"4453", *b"4463", *b"4473", *b"4483", *b"4493",
    *b"4503", *b"4513", *b"4523", *b"4533", *b"4543", *b"4553", *b"4563", *b"4573", *b"4583",
    *b"4593", *b"4603", *b"4613", *b"4623", *b"4633", *b"4643", *b"4653", *b"4663", *b"4673",
    *b"4683", *b"4693", *b"4703", *b"4713", *b"4723", *b"4733", *b"4743", *b"4753", *b"4763",
    *b"4773", *b"4783", *b"4793", *b"4803", *b"4813", *b"4823", *b"4833", *b"4843", *b"4853",
    *b"4863", *b"4873", *b"4883", *b"4893", *b"4903", *b"4913", *b"4923", *b"4933", *b"4943",
    *b"4953", *b"4963", *b"4973", *b"4983", *b"4993", *b"5003", *b"5013", *b"5023", *b"5033",
    *b"5043", *b"5053", *b"5063", *b"5073", *b"5083", *b"5093", *b"5103", *b"5113", *b"5123",
    *b"5133", *b"5143", *b"5153", *b"5163", *b"5173", *b"5183", *b"5193", *b"5203", *b"5213",
    *b"5223", *b"5233", *b"5243", *b"5253", *b"5263", *b"5273", *b"5283", *b"5293", *b"5303",
    *b"5313", *b"5323", *b"5333", *b"5343", *b"5353", *b"5363", *b"5373", *b"5383", *b"5393",
    *b"5403", *b"5413", *b"5423", *b"5433", *b"5443", *b"5453", *b"5463", *b"5473", *b"5483",
    *b"5493", *b"5503", *b"5513", *b"5523", *b"5533", *b"5543", *b"5553", *b"5563", *b"5573",
    *b"5583", *b"5593", *b"5603", *b"5613", *b"5623", *b"5633", *b"5643", *b"5653", *b"5663",
    *b"5673", *b"5683", *b"5693", *b"5703", *b"5713", *b"5723", *b"5733", *b"5743", *b"5753",
    *b"5763", *b"5773", *b"5783", *b"5793", *b"5803", *b"5813", *b"5823", *b"5833", *b"5843",
    *b"5853", *b"5863", *b"5873", *b"5883", *b"5893", *b"5903", *b"5913", *b"5923", *b"5933",
    *b"5943", *b"5953", *b"5963", *b"5973", *b"5983", *b"5993", *b"6003", *b"6013", *b"6023",
    *b"6033", *b"6043", *b"6053", *b"6063", *b"6073", *b"6083", *b"6093", *b"6103", *b"6113",
    *b"6123", *b"6133", *b"6143", *b"6153", *b"6163", *b"6173", *b"6183", *b"6193", *b"6203",
    *b"6213", *b"6223", *b"6233", *b"6243", *b"6253", *b"6263", *b"6273", *b"6283", *b"6293",
    *b"6303", *b"6313", *b"6323", *b"6333", *b"6343", *b"6353", *b"6363", *b"6373", *b"6383",
    *b"6393", *b"6403", *b"6413", *b"6423", *b"6433", *b"6443", *b"6453", *b"6463", *b"6473",
    *b"6483", *b"6493", *b"6503", *b"6513", *b"6523", *b"6533", *b"6543", *b"6553", *b"6563",
    *b"6573", *b"6583", *b"6593", *b"6603", *b"6613", *b"6623", *b"6633", *b"6643", *b"6653",
    *b"6663", *b"6673", *b"6683", *b"6693", *b"6703", *b"6713", *b"6723", *b"6733", *b"6743",
    *b"6753", *b"6763", *b"6773", *b"6783", *b"6793", *b"6803", *b"6813", *b"6823", *b"6833",
    *b"6843", *b"6853", *b"6863", *b"6873", *b"6883", *b"6893", *b"6903", *b"6913", *b"6923",
    *b"6933", *b"6943", *b"6953", *b"6963", *b"6973", *b"6983", *b"6993", *b"7003", *b"7013",
    *b"7023", *b"7033", *b"7043", *b"7053", *b"7063", *b"7073", *b"7083", *b"7093", *b"7103",
    *b"7113", *b"7123", *b"7133", *b"7143", *b"7153", *b"7163", *b"7173", *b"7183", *b"7193",
    *b"7203", *b"7213", *b"7223", *b"7233", *b"7243", *b"7253", *b"7263", *b"7273", *b"7283",
    *b"7293", *b"7303", *b"7313", *b"7323", *b"7333", *b"7343", *b"7353", *b"7363", *b"7373",
    *b"7383", *b"7393", *b"7403", *b"7413", *b"7423", *b"7433", *b"7443", *b"7453", *b"7463",
    *b"7473", *b"7483", *b"7493", *b"7503", *b"7513", *b"7523", *b"7533", *b"7543", *b"7553",
    *b"7563", *b"7573", *b"7583", *b"7593", *b"7603", *b"7613", *b"7623", *b"7633", *b"7643",
    *b"7653", *b"7663", *b"7673", *b"7683", *b"7693", *b"7703", *b"7713", *b"7723", *b"7733",
    *b"7743", *b"7753", *b"7763", *b"7773", *b"7783", *b"7793", *b"7803", *b"7813", *b"7823",
    *b"7833", *b"7843", *b"7853", *b"7863", *b"7873", *b"7883", *b"7893", *b"7903", *b"7913",
    *b"7923", *b"7933", *b"7943", *b"7953", *b"7963", *b"7973", *b"7983", *b"7993", *b"8003",
    *b"8013", *b"8023", *b"8033", *b"8043", *b"8053", *b"8063", *b"8073", *b"8083", *b"8093",
    *b"8103", *b"8113", *b"8123", *b"8133", *b"8143", *b"8153", *b"8163", *b"8173", *b"8183",
    *b"8193", *b"8203", *b"8213", *b"8223", *b"8233", *b"8243", *b"8253", *b"8263", *b"8273",
    *b"8283", *b"8293", *b"8303", *b"8313", *b"8323", *b"8333", *b"8343", *b"8353", *b"8363",
    *b"8373", *b"8383", *b"8393", *b"8403", *b"8413", *b"8423", *b"8433", *b"8443", *b"8453",
    *b"8463", *b"8473", *b"8483", *b"8493", *b"8503", *b"8513", *b"8523", *b"8533", *b"8543",
    *b"8553", *b"8563", *b"8573", *b"8583", *b"8593", *b"8603", *b"8613", *b"8623", *b"8633",
    *b"8643", *b"8653", *b"8663", *b"8673", *b"8683", *b"8693", *b"8703", *b"8713", *b"8723",
    *b"8733", *b"8743", *b"8753", *b"8763", *b"8773", *b"8783", *b"8793", *b"8803", *b"8813",
    *b"8823", *b"8833", *b"8843", *b"8853", *b"8863", *b"8873", *b"8883", *b"8893", *b"8903",
    *b"8913", *b"8923", *b"8933", *b"8943", *b"8953", *b"8963", *b"8973", *b"8983", *b"8993",
    *b"9003", *b"9013", *b"9023", *b"9033", *b"9043", *b"9053", *b"9063", *b"9073", *b"9083",
    *b"9093", *b"9103", *b"9113", *b"9123", *b"9133", *b"9143", *b"9153", *b"9163", *b"9173",
    *b"9183", *b"9193", *b"9203", *b"9213", *b"9223", *b"9233", *b"9243", *b"9253", *b"9263",
    *b"9273", *b"9283", *b"9293", *b"9303", *b"9313", *b"9323", *b"9333", *b"9343", *b"9353",
    *b"9363", *b"9373", *b"9383", *b"9393", *b"9403", *b"9413", *b"9423", *b"9433", *b"9443",
    *b"9453", *b"9463", *b"9473", *b"9483", *b"9493", *b"9503", *b"9513", *b"9523", *b"9533",
    *b"9543", *b"9553", *b"9563", *b"9573", *b"9583", *b"9593", *b"9603", *b"9613", *b"9623",
    *b"9633", *b"9643", *b"9653", *b"9663", *b"9673", *b"9683", *b"9693", *b"9703", *b"9713",
    *b"9723", *b"9733", *b"9743", *b"9753", *b"9763", *b"9773", *b"9783", *b"9793", *b"9803",
    *b"9813", *b"9823", *b"9833", *b"9843", *b"9853", *b"9863", *b"9873", *b"9883", *b"9893",
    *b"9903", *b"9913", *b"9923", *b"9933", *b"9943", *b"9953", *b"9963", *b"9973", *b"9983",
    *b"9993",
];

/// Writes the last digits of a number in hexadecimal at a place, and returns where they end.
pub(crate) fn put_hex(place: &mut [u8], at: usize, count: usize, number: u64) -> usize
    requires { at + count ≤ length place.old }
    ensures len { length place.new ≡ length place.old }
    ensures end { result ≡ at + count }
    ensures bytes { take result place.new ≡ take at place.old ++ hex_digits count number }
{
    if count == 0 {
        return at;
    }
    let end = put_hex(place, at, count - 1, number / 16);
    put_bytes(place, end, &[hex_digit_of((number % 16) as u8)])
}
