// The text of an IPv4 address.
ghost use Rattle.std.specs.Prelude.{◌≡◌, ◌≤◌, ◌<◌, ◌+◌, ◌*◌, ◌++◌, length, take, drop, decimal, unwrap_or};
ghost use Rattle.std.specs.List.{join_by};
ghost use Rattle.text_spec.specs.Marks.{dot};
ghost use Rattle.text_spec.specs.Value.{octet_text, ipv4_text, quoted};
ghost use Rattle.value_text.specs.Dotted.{dotted, marked, octet_digits, row};

use crate::octet_text::place_octets;
use crate::place::{place_one, place_quad};

/// The digits of each octet and a dot, in rows of four octets.
static ROWS: [u8; 1024] =
    *b"0.  1.  2.  3.  4.  5.  6.  7.  8.  9.  10. 11. 12. 13. 14. 15. 16. 17. 18. 19. 20. 21. 22. 23. 24. 25. 26. 27. 28. 29. 30. 31. 32. 33. 34. 35. 36. 37. 38. 39. 40. 41. 42. 43. 44. 45. 46. 47. 48. 49. 50. 51. 52. 53. 54. 55. 56. 57. 58. 59. 60. 61. 62. 63. 64. 65. 66. 67. 68. 69. 70. 71. 72. 73. 74. 75. 76. 77. 78. 79. 80. 81. 82. 83. 84. 85. 86. 87. 88. 89. 90. 91. 92. 93. 94. 95. 96. 97. 98. 99. 100.101.102.103.104.105.106.107.108.109.110.111.112.113.114.115.116.117.118.119.120.121.122.123.124.125.126.127.128.129.130.131.132.133.134.135.136.137.138.139.140.141.142.143.144.145.146.147.148.149.150.151.152.153.154.155.156.157.158.159.160.161.162.163.164.165.166.167.168.169.170.171.172.173.174.175.176.177.178.179.180.181.182.183.184.185.186.187.188.189.190.191.192.193.194.195.196.197.198.199.200.201.202.203.204.205.206.207.208.209.210.211.212.213.214.215.216.217.218.219.220.221.222.223.224.225.226.227.228.229.230.231.232.233.234.235.236.237.238.239.240.241.242.243.244.245.246.247.248.249.250.251.252.253.254.255.";

/// How many digits each octet has.
static DIGIT_COUNTS: [u8; 256] = [
    1, 1, 1, 1, 1, 1, 1, 1, 1, 1, 2, 2, 2, 2, 2, 2, 2, 2, 2, 2, 2, 2, 2, 2, 2, 2, 2, 2, 2, 2, 2, 2,
    2, 2, 2, 2, 2, 2, 2, 2, 2, 2, 2, 2, 2, 2, 2, 2, 2, 2, 2, 2, 2, 2, 2, 2, 2, 2, 2, 2, 2, 2, 2, 2,
    2, 2, 2, 2, 2, 2, 2, 2, 2, 2, 2, 2, 2, 2, 2, 2, 2, 2, 2, 2, 2, 2, 2, 2, 2, 2, 2, 2, 2, 2, 2, 2,
    2, 2, 2, 2, 3, 3, 3, 3, 3, 3, 3, 3, 3, 3, 3, 3, 3, 3, 3, 3, 3, 3, 3, 3, 3, 3, 3, 3, 3, 3, 3, 3,
    3, 3, 3, 3, 3, 3, 3, 3, 3, 3, 3, 3, 3, 3, 3, 3, 3, 3, 3, 3, 3, 3, 3, 3, 3, 3, 3, 3, 3, 3, 3, 3,
    3, 3, 3, 3, 3, 3, 3, 3, 3, 3, 3, 3, 3, 3, 3, 3, 3, 3, 3, 3, 3, 3, 3, 3, 3, 3, 3, 3, 3, 3, 3, 3,
    3, 3, 3, 3, 3, 3, 3, 3, 3, 3, 3, 3, 3, 3, 3, 3, 3, 3, 3, 3, 3, 3, 3, 3, 3, 3, 3, 3, 3, 3, 3, 3,
    3, 3, 3, 3, 3, 3, 3, 3, 3, 3, 3, 3, 3, 3, 3, 3, 3, 3, 3, 3, 3, 3, 3, 3, 3, 3, 3, 3, 3, 3, 3, 3,
];

/// Puts the row of an octet.
#[inline(always)]
fn place_row(octet: u8, text: &mut [u8], at: usize)
    requires { at + 4 ≤ length text.old }
    ensures { take (at + 4) text.new ≡ take at text.old ++ row octet }
{
    let row = 4 * octet as usize;
    place_quad(
        ROWS[row],
        ROWS[row + 1],
        ROWS[row + 2],
        ROWS[row + 3],
        text,
        at,
    );
}

/// How many digits an octet has.
#[inline(always)]
fn digit_count(octet: u8) -> usize
    ensures { result ≡ length (octet_digits octet) }
{
    DIGIT_COUNTS[octet as usize] as usize
}

/// Puts an octet in decimal, and answers the place behind it, where a dot stands.
#[inline(always)]
fn place_octet(octet: u8, text: &mut [u8], at: usize) -> usize
    requires { at + 4 ≤ length text.old }
    ensures digits { take result text.new ≡ take at text.old ++ octet_digits octet }
    ensures dot { take (result + 1) text.new ≡ take at text.old ++ marked octet 46 }
    ensures near { result ≤ at + 3 }
{
    place_row(octet, text, at);
    at + digit_count(octet)
}

/// Puts four octets with dots between, in quotes.
#[inline(always)]
fn place_dotted(a: u8, b: u8, c: u8, d: u8, text: &mut [u8], at: usize) -> usize
    requires { at + 20 ≤ length text.old }
    ensures grown { take result text.new ≡ take at text.old ++ dotted a b c d }
    ensures near { result ≤ at + 17 }
{
    place_one(b'"', text, at);
    let end = place_octet(a, text, at + 1);
    let end = place_octet(b, text, end + 1);
    let end = place_octet(c, text, end + 1);
    let end = place_octet(d, text, end + 1);
    place_one(b'"', text, end);
    end + 1
}

/// Puts an address of four octets.
#[inline(always)]
pub fn place_ipv4(value: &[u8], text: &mut [u8], at: usize) -> usize
    requires four { length value.now ≡ 4 }
    requires room { at + 20 ≤ length text.old }
    ensures grown { take result text.new ≡ take at text.old ++ quoted (join_by decimal dot value.now) }
    ensures near { result ≤ at + 17 }
{
    place_dotted(value[0], value[1], value[2], value[3], text, at)
}

/// Puts an IPv4 address of any number of octets.
pub fn place_dotted_or_octets(value: &[u8], text: &mut [u8], at: usize) -> usize
    requires { at + 6 * length value.now + 64 ≤ length text.old }
    ensures grown { take result text.new ≡ take at text.old ++ unwrap_or (ipv4_text value.now) (octet_text value.now) }
    ensures near { result ≤ at + 6 * length value.now + 20 }
{
    if value.len() != 4 {
        return place_octets(value, text, at);
    }
    place_ipv4(value, text, at)
}
