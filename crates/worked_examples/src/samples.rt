// One vector of the generator for each of many requests: its transform by the plain sums, and the counts that the
// reference in checks/reference/ works out. Sizes of all shapes, moduli that are not prime, roots of any order.

ghost use Rattle.std.specs.Prelude.{◌≡◌, ◌<◌, All, IfOk, vec_len};

use crate::call::tells;
use matrix_meaning::{Request, times_plain};
use request_text::read_request;
use ring_mod::Modulus;
use std::alloc::Global;
use std::process::Abort;
use std::test::Fail;

// A request, and after the colon the operations, loads and stores of one transform.
const ROWS: &str = "\
dft 1 mod 2 root 1: 0 1 1
dft 2 mod 2 root 1: 2 2 2
dft 2 mod 15 root 4: 3 2 2
dft 2 mod 10 root 9: 2 2 2
dft 2 mod 4611686018427387903 root 4611686018427387902: 2 2 2
dft 4 mod 17 root 4: 9 4 4
dft 4 mod 10 root 9: 9 4 4
dft 4 mod 10 root 9 unroll 2: 12 8 8
dft 6 mod 7 root 3: 26 6 6
dft 8 mod 17 root 2: 29 8 8
dft 9 mod 19 root 4 unroll 2: 117 54 18
dft 9 mod 19 root 4 unroll 16: 64 9 9
dft 11 mod 23 root 2 budget 242: 242 121 11
dft 15 mod 31 root 9: 158 30 30
dft 16 mod 17 root 3: 88 32 32
dft 16 mod 17 root 3 unroll 16: 81 16 16
dft 30 mod 31 root 3 unroll 2: 510 270 90
dft 60 mod 61 root 2 unroll 2: 1140 600 240
dft 210 mod 211 root 2: 4762 840 840
dft 210 mod 211 root 2 unroll 2: 6510 3360 840
dft 240 mod 241 root 7 unroll 64: 3743 720 720
dft 251 mod 503 root 2: 126002 63001 251
dft 256 mod 257 root 3 unroll 64: 2848 512 512
dft 11 mod 23 root 2: 242 121 11
dft 30 mod 31 root 3: 346 90 90
dft 4 mod 17 root 4 procs 2: 12 8 8
dft 4 mod 17 root 4 line 2 lanes 2: 12 12 12
wht 4 mod 5 line 2 lanes 2: 8 16 16
wht 1024 mod 1024 procs 2 line 4 lanes 2: 10240 8192 8192
dft 4 mod 17 root 4 weight 5: 13 4 4
dft 6 mod 7 root 3 weight 5: 58 6 6
dft 4 mod 10 root 9 weight 5: 9 4 4
dft 16 mod 17 root 2 unroll 16: 81 16 16
dft 16 mod 17 root 2 unroll 16 weight 2: 89 16 16
dft 4 mod 17 root 4 procs 2 weight 1000: 4008 8 8
wht 1 mod 2: 0 1 1
wht 2 mod 2: 2 2 2
wht 4 mod 5: 8 4 4
wht 8 mod 10 unroll 2: 24 24 24
wht 64 mod 97 unroll 4: 384 320 320
wht 256 mod 4611686018427387903 unroll 2: 2048 2048 2048
dft 40 mod 205 root 12 unroll 7: 518 120 120
dft 48 mod 1539 root 350 unroll 25: 364 96 96
dft 102 mod 1531 root 107: 3910 1938 306
dft 90 mod 176 root 161 unroll 9: 1143 270 270
dft 104 mod 16 root 3 unroll 25: 1625 208 208
dft 120 mod 91 root 4: 1270 360 360
dft 80 mod 1968 root 1267 unroll 7: 976 240 240
dft 99 mod 469 root 291 unroll 4: 2673 1287 297
dft 18 mod 627 root 32 unroll 2: 252 126 54
dft 40 mod 385 root 337 unroll 64: 433 40 40
dft 72 mod 740 root 613 unroll 9: 773 144 144
dft 91 mod 245 root 211 unroll 25: 2106 182 182
dft 64 mod 130 root 109 unroll 5: 512 192 192
dft 69 mod 1251 root 925 unroll 6: 3404 1656 138
dft 90 mod 868 root 277 unroll 32: 1183 270 270
dft 72 mod 1355 root 519 unroll 12: 746 144 144
dft 108 mod 1090 root 351 unroll 3: 1620 540 540
dft 84 mod 1131 root 947 unroll 2: 2016 1008 336
dft 64 mod 51 root 22: 480 128 128
dft 84 mod 1677 root 1322 unroll 5: 1645 756 252
dft 6 mod 1183 root 699 unroll 3: 26 12 12
dft 57 mod 1337 root 1171 unroll 32: 2188 114 114
dft 87 mod 1047 root 529 unroll 2: 5568 2784 174
dft 20 mod 1488 root 635 unroll 32: 209 20 20
dft 24 mod 260 root 147 unroll 9: 167 48 48
dft 104 mod 1152 root 593 unroll 5: 3302 1560 312
dft 30 mod 1891 root 1376 unroll 5: 361 90 90
dft 60 mod 150 root 97 unroll 32: 747 120 120
dft 80 mod 1700 root 273 unroll 7: 976 240 240
dft 128 mod 73 root 10 unroll 7: 1280 512 512
dft 63 mod 551 root 74 unroll 3: 1365 567 189
dft 120 mod 663 root 406 unroll 9: 1495 360 360
dft 76 mod 624 root 5 unroll 5: 3135 1520 152
dft 121 mod 1454 root 91 unroll 4: 5445 2662 242
dft 106 mod 107 root 73 unroll 16: 11342 5724 212
dft 36 mod 259 root 30 unroll 7: 348 72 72
dft 72 mod 438 root 307 unroll 4: 894 288 288
dft 10 mod 781 root 117 unroll 12: 82 10 10
dft 77 mod 1943 root 426 unroll 16: 2328 154 154
dft 42 mod 1806 root 851 unroll 4: 791 378 126
dft 64 mod 40 root 37 unroll 2: 704 384 384
dft 106 mod 428 root 9 unroll 25: 11342 5724 212
dft 54 mod 228 root 211 unroll 12: 483 162 162
dft 58 mod 944 root 537 unroll 32: 3279 116 116
dft 72 mod 728 root 461: 594 216 216
dft 53 mod 107 root 25 unroll 6: 5618 2809 53
dft 54 mod 243 root 224 unroll 3: 702 216 216
dft 8 mod 257 root 64 unroll 9: 29 8 8
dft 2 mod 12289 root 12288: 2 2 2
dft 2 mod 65537 root 65536 unroll 16: 2 2 2
dft 45 mod 2161 root 1397 unroll 12: 644 90 90
dft 22 mod 2305843009213693951 root 507811688195676949 unroll 32: 442 22 22
dft 48 mod 12289 root 7506 unroll 2: 624 336 240
dft 40 mod 2161 root 1497 unroll 25: 433 80 80
dft 16 mod 17 root 3 unroll 3: 112 64 64
dft 64 mod 65537 root 8224 unroll 3: 704 384 384
dft 77 mod 2305843009213693951 root 220144582978765114 unroll 9: 2552 924 154
dft 8 mod 12289 root 8246 unroll 16: 29 8 8
dft 16 mod 257 root 249 unroll 12: 88 32 32
dft 6 mod 2161 root 594 unroll 2: 42 24 12
dft 21 mod 2305843009213693951 root 712608377804628304 unroll 6: 364 168 42
dft 2 mod 998244353 root 998244352 unroll 5: 2 2 2
dft 4 mod 12289 root 1479 unroll 12: 9 4 4
dft 126 mod 2305843009213693951 root 620124636481304636 unroll 25: 2426 378 378
dft 128 mod 257 root 9 unroll 32: 1240 256 256
dft 128 mod 65537 root 13987 unroll 6: 1376 512 512
dft 128 mod 257 root 9 unroll 9: 1296 384 384
dft 4 mod 12289 root 1479 unroll 2: 12 8 8
dft 2 mod 17 root 16 unroll 6: 2 2 2
dft 128 mod 12289 root 12149 unroll 16: 1240 256 256
dft 8 mod 17 root 9 unroll 32: 29 8 8
dft 45 mod 2305843009213693951 root 295230898440480023 unroll 6: 669 135 135
dft 40 mod 2161 root 1497 unroll 16: 433 80 80
dft 128 mod 65537 root 13987 unroll 5: 1376 512 512
dft 48 mod 97 root 25 unroll 9: 424 144 144
dft 6 mod 12289 root 6241: 26 6 6
dft 16 mod 17 root 3 unroll 32: 81 16 16
dft 91 mod 2305843009213693951 root 223417494601207010 unroll 2: 3640 1820 182
dft 96 mod 97 root 5: 980 288 288
dft 105 mod 2305843009213693951 root 1377187606432818568 unroll 2: 3150 1575 315
dft 16 mod 97 root 8 unroll 2: 112 64 64
dft 96 mod 12289 root 5957: 980 288 288
dft 2 mod 17 root 16 unroll 25: 2 2 2
dft 12 mod 97 root 6 unroll 7: 67 24 24
dft 112 mod 998244353 root 580150385 unroll 3: 2352 1232 560
dft 8 mod 65537 root 4096 unroll 12: 29 8 8
dft 4 mod 17 root 13 unroll 6: 9 4 4
dft 96 mod 97 root 5 unroll 16: 980 288 288
dft 126 mod 2305843009213693951 root 620124636481304636 unroll 2: 3528 1764 504
dft 128 mod 257 root 9: 1296 384 384
dft 32 mod 998244353 root 452798380 unroll 7: 240 96 96
dft 128 mod 257 root 9 unroll 2: 1664 896 896
dft 128 mod 12289 root 12149 unroll 3: 1664 896 896
dft 4 mod 12289 root 1479 unroll 6: 9 4 4
dft 72 mod 2161 root 884: 786 216 216
dft 9 mod 2161 root 1274 unroll 16: 64 9 9
dft 4 mod 65537 root 65281 unroll 25: 9 4 4
dft 30 mod 2161 root 1053 unroll 7: 346 90 90
dft 4 mod 65537 root 65281 unroll 16: 9 4 4
dft 2 mod 17 root 16 unroll 32: 2 2 2
dft 16 mod 257 root 249: 88 32 32
dft 16 mod 257 root 249 unroll 16: 81 16 16
dft 48 mod 12289 root 7506: 424 144 144
dft 6 mod 97 root 36 unroll 7: 26 6 6
dft 72 mod 2161 root 884 unroll 3: 840 360 360
dft 2 mod 65537 root 65536 unroll 25: 2 2 2
dft 20 mod 2161 root 52 unroll 9: 189 40 40
dft 24 mod 97 root 43 unroll 4: 182 72 72
dft 4 mod 65537 root 65281 unroll 64: 9 4 4
dft 56 mod 998244353 root 418888083 unroll 12: 827 112 112
dft 2 mod 97 root 96: 2 2 2
dft 8 mod 17 root 9 unroll 16: 29 8 8
dft 112 mod 998244353 root 580150385: 1864 336 336
dft 2 mod 257 root 256 unroll 7: 2 2 2
dft 96 mod 97 root 5 unroll 7: 1040 384 384
dft 3 mod 12289 root 6240 unroll 25: 10 3 3
dft 3 mod 97 root 35 unroll 2: 18 9 3
dft 64 mod 65537 root 8224 unroll 7: 560 192 192
dft 45 mod 2305843009213693951 root 295230898440480023 unroll 5: 669 135 135
dft 8 mod 257 root 64: 29 8 8
dft 8 mod 17 root 9 unroll 5: 34 16 16
dft 2 mod 17 root 16 unroll 2: 2 2 2
dft 54 mod 2161 root 1627 unroll 32: 650 108 108
dft 16 mod 97 root 8 unroll 6: 88 32 32
dft 5 mod 2305843009213693951 root 725554454131936870 unroll 2: 50 25 5
dft 24 mod 12289 root 7260: 167 48 48
dft 10 mod 2161 root 543 unroll 12: 82 10 10
dft 32 mod 65537 root 65529 unroll 6: 240 96 96
dft 48 mod 97 root 25 unroll 2: 624 336 240
dft 16 mod 65537 root 64: 88 32 32
dft 3 mod 12289 root 6240 unroll 16: 10 3 3
dft 30 mod 2305843009213693951 root 1682936192733059053 unroll 4: 430 210 90
dft 77 mod 2305843009213693951 root 220144582978765114: 2552 924 154
dft 3 mod 12289 root 6240 unroll 32: 10 3 3
dft 28 mod 998244353 root 381004311 unroll 3: 476 252 84
dft 62 mod 2305843009213693951 root 459707093939892694: 3906 1984 124
dft 16 mod 65537 root 64 unroll 16: 81 16 16
dft 2 mod 97 root 96 unroll 2: 2 2 2
dft 4 mod 97 root 22 unroll 2: 12 8 8
dft 78 mod 2305843009213693951 root 1305265947923080195: 2366 1170 234
dft 124 mod 4611686018427387903 root 2 unroll 2: 8060 4092 372
dft 124 mod 4611686018427387903 root 134217728: 7967 3968 248
dft 124 mod 4611686018427387903 root 549755813888 unroll 6: 7967 3968 248
dft 62 mod 4611686018427387903 root 36028797018963968 unroll 16: 3937 1984 124
dft 62 mod 4611686018427387903 root 2: 3937 1984 124
dft 62 mod 4611686018427387903 root 17179869184 unroll 9: 3906 1984 124
dft 93 mod 4611686018427387903 root 281474976710656 unroll 2: 6324 3162 186
dft 62 mod 4611686018427387903 root 4 unroll 16: 3906 1984 124
dft 124 mod 4611686018427387903 root 134217728 unroll 16: 7967 3968 248
dft 62 mod 4611686018427387903 root 4398046511104: 3906 1984 124
dft 124 mod 4611686018427387903 root 8796093022208 unroll 25: 7967 3968 248
dft 31 mod 4611686018427387903 root 4: 1922 961 31
dft 62 mod 4611686018427387903 root 72057594037927936: 3906 1984 124
dft 62 mod 4611686018427387903 root 8192 unroll 7: 3937 1984 124
dft 62 mod 4611686018427387903 root 549755813888 unroll 16: 3937 1984 124
dft 124 mod 4611686018427387903 root 512 unroll 2: 8060 4092 372
dft 62 mod 4611686018427387903 root 562949953421312 unroll 6: 3937 1984 124
dft 62 mod 4611686018427387903 root 262144 unroll 4: 3906 1984 124
wht 8 mod 3891442699051695484 unroll 25: 24 8 8
wht 128 mod 26 unroll 9: 896 640 640
wht 16 mod 35 unroll 64: 64 16 16
wht 4 mod 46 unroll 2: 8 8 8
wht 16 mod 3326657929147572759 unroll 6: 64 48 48
wht 128 mod 991356705225016260 unroll 7: 896 768 768
wht 2 mod 3522438331107788475 unroll 2: 2 2 2
wht 128 mod 4233786483637028316 unroll 5: 896 768 768
wht 1 mod 59: 0 1 1
wht 128 mod 68 unroll 9: 896 640 640
wht 2 mod 45166924494489513 unroll 4: 2 2 2
wht 16 mod 1587975273398919938 unroll 6: 64 48 48
wht 8 mod 25: 24 8 8
wht 128 mod 55 unroll 32: 896 384 384
wht 16 mod 25 unroll 25: 64 16 16
wht 16 mod 96 unroll 64: 64 16 16
wht 4 mod 1661539144826580947: 8 4 4
wht 16 mod 1439038956852968080 unroll 6: 64 48 48
wht 128 mod 813409916471997194 unroll 5: 896 768 768
wht 2 mod 50 unroll 2: 2 2 2
wht 1024 mod 1024: 10240 8192 8192
dft 4 mod 17 root 4 procs 2 line 1: 12 8 8
dft 4 mod 17 root 4 lanes 2: 12 12 12
dft 16 mod 17 root 3 procs 2 line 2: 88 32 32
dft 16 mod 17 root 3 procs 2 line 2 lanes 2: 88 48 48
dft 36 mod 37 root 2 procs 2 line 3 unroll 2: 540 288 144
dft 64 mod 193 root 125 lanes 8 unroll 2: 704 448 448
dft 81 mod 163 root 38 procs 3 line 3 lanes 3: 891 405 405
dft 144 mod 31 root 30 procs 3 line 4 unroll 3: 1584 864 864
dft 225 mod 101 root 1 procs 3 line 5 unroll 2: 7425 3600 900
dft 256 mod 257 root 3 procs 4 line 4 lanes 4: 3072 1280 1280
wht 4 mod 5 lanes 2: 8 16 16
wht 16 mod 10 procs 4: 64 32 32
wht 64 mod 97 procs 2 line 4 lanes 4 unroll 2: 384 512 512
wht 256 mod 4611686018427387903 procs 2 line 8 lanes 2: 2048 1536 1536
dft 48 mod 97 root 25 procs 2 line 2 lanes 2 unroll 3: 496 288 288
dft 100 mod 101 root 2 procs 5 line 2: 1740 400 400
wht 1024 mod 1024 procs 16 line 2 lanes 2 unroll 4: 10240 10240 10240
idft 4 mod 17 root 4: 13 4 4
idft 4 mod 17 root 4 procs 2: 16 8 8
idft 1 mod 17 root 1 weight 3: 3 1 1
idft 16 mod 17 root 3 procs 2 line 2 lanes 2: 104 48 48
idft 6 mod 7 root 3 unroll 2 weight 5: 144 24 12
";

// The first `size` states of the generator after the seed, as residues.
fn vector_of_seed(alloc: Global, m: &Modulus, size: u64, seed: u64) -> Result<Vec<u64>, Fail>
    ensures size { IfOk result (λ x. vec_len x ≡ size) }
    ensures residues { IfOk result (λ x. All (λ v. v < m.now) x.items) }
{
    let mut vector = Vec::new(alloc);
    let mut state = seed;
    for _ in 0..size {
        state = state
            .wrapping_mul(6_364_136_223_846_793_005)
            .wrapping_add(1_442_695_040_888_963_407);
        vector.push(m.reduce(state))?;
    }
    if vector.len() as u64 == size && vector.iter().all(|v| *v < m.get()) {
        Ok(vector)
    } else {
        Err("a vector of residues")?
    }
}

// The sum over k of (k+1) times number k.
fn weighted_sum(m: &Modulus, y: &[u64]) -> u64 {
    let mut sum = 0;
    for (k, value) in y.iter().enumerate() {
        let term = m.mul(m.reduce(k as u64 + 1), m.reduce(*value));
        sum = m.add(m.reduce(sum), term);
    }
    sum
}

// That sum of the matrix times the seed's vector, by the definition.
fn plain_sum(alloc: Global, request: &Request, seed: u64) -> Result<u64, Fail> {
    let m = Modulus::new(request.modulus).ok_or("a modulus")?;
    let root = m.reduce(request.root);
    let x = vector_of_seed(alloc, &m, request.size, seed)?;
    let y = times_plain(alloc, request.kind, &[request.size], &[root], m.get(), &x)?;
    Ok(weighted_sum(&m, &y))
}

// The code and the text of a sample with this sum, and with the operations, loads and stores of the row.
fn sample_text(alloc: Global, sum: u64, counts: &str) -> Result<String, Fail> {
    let (operations, rest) = counts.split_once(' ').ok_or("operations")?;
    let (loads, stores) = rest.split_once(' ').ok_or("loads and stores")?;
    Ok(format!(in alloc;
        "0; sum {sum}\noperations {operations}\nloads {loads}\nstores {stores}\n; "
    )?)
}

fn wanted_of(alloc: Global, seed: u64, line: &str, counts: &str) -> Result<String, Fail> {
    let request = read_request(line.as_bytes()).map_err(|_| "a request")?;
    sample_text(alloc, plain_sum(alloc, &request, seed)?, counts)
}

fn is_plain_sum(rt: &impl Abort, alloc: Global, seed: u64, row: &str) -> Result<(), Fail> {
    let (line, counts) = row.split_once(": ").ok_or("a row")?;
    let wanted = wanted_of(alloc, seed, line, counts)?;
    let words = format!(in alloc; "sample --seed {seed}")?;
    tells(rt, alloc, &words, line, &wanted)
}

#[test]
fn samples_are_plain_sums(rt: HostRuntime) -> Result<(), Fail> {
    for (seed, row) in ROWS.lines().enumerate() {
        is_plain_sum(&rt, rt.alloc(), seed as u64, row)?;
    }
    Ok(())
}
