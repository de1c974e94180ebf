use crate::scripts::Stored;

pub(crate) const SCRIPT: Stored = Stored {
    rack: "",
    lines: "push 1 2 5
look 2 1 5
push 3 1 6
submit 2 8 20 -223
submit 2 4 6 -342
elect 1
ship 2 3
look 2 1 4
look 3 2 6
push 3 2 5
push 2 1 6
push 2 1 6
look 1 2 6
push 2 3 4
push 2 1 6
commit 2
push 2 1 5
push 1 3 4
push 2 1 6
push 1 3 5
take 1 3
look 2 3 5
look 1 3 6
push 1 3 5
look 1 2 5
look 3 2 4
look 3 1 5
take 2 3
submit 3 2 19 -56
push 3 1 6
push 2 1 5
look 3 1 4
push 3 2 4
push 1 2 4
push 2 1 5
commit 4
push 2 3 6
look 3 1 5
push 3 1 5
look 1 3 5
look 1 3 6
push 3 2 6
push 1 3 4
push 1 3 4
look 2 3 6
look 3 2 6
push 3 2 4
push 2 3 6
look 3 2 6
look 1 2 5
look 1 2 6
look 1 2 6
look 1 2 6
elect 3
commit 3
push 3 1 4
push 2 1 6
win 3
push 2 3 5
push 1 2 6
commit 4
look 3 2 5
look 1 3 4
take 1 0
push 2 1 4
take 2 3
look 3 1 4
push 2 1 6
look 3 1 4
look 2 1 4
push 1 3 6
timeout 3
push 2 3 5
look 1 2 5
look 1 2 4
push 1 2 4
look 2 3 4
ship 1 3
ship 1 1
look 1 3 6
look 3 2 5
push 2 1 4
look 2 3 4
look 2 1 6
push 3 2 5
push 3 2 5
look 2 1 4
look 3 1 5
look 1 2 4
look 1 2 6
ship 3 2
elect 1
look 2 3 5
push 1 2 4
push 2 1 5
push 1 2 6
ship 2 3
look 2 1 4
look 3 1 6
look 1 2 6
look 3 1 4
ship 2 3
push 2 3 6
push 1 2 5
elect 2
look 1 2 5
look 2 3 5
push 3 1 4
ship 1 3
push 3 2 6
push 2 3 4
look 1 3 5
look 2 1 6
look 2 3 6
look 1 3 4
commit 2
push 2 3 4
look 2 1 5
take 3 1
push 2 3 4
push 3 2 6
push 2 3 6
push 3 2 5
look 3 2 6
look 2 3 5
push 3 1 5
push 2 3 4
push 2 1 5
push 3 1 4
push 2 3 5
push 3 1 6
push 3 2 5
take 2 0
look 2 3 6
look 2 3 5
look 3 2 6
submit 2 5 9 -173
look 3 2 5
push 1 2 6
push 3 1 4
look 1 3 5
push 1 2 5
look 3 2 4
push 2 1 6
look 3 2 4
look 2 1 5
push 1 3 5
push 1 3 4
look 1 3 5
look 3 2 4
win 3
take 3 2
push 1 2 5
elect 1
push 1 2 6
push 1 2 6
take 1 3
submit 3 5 3 -898
ship 3 1
take 1 3
commit 3
submit 3 10 17 -565
look 1 3 4
push 2 1 6
look 1 3 4
take 2 0
ship 3 1
look 3 1 5
ship 3 2
look 1 2 5
ship 3 2
look 2 1 6
push 1 3 5
look 3 1 4
look 3 2 4
look 1 2 6
submit 3 4 0 -919
look 2 1 5
commit 3
submit 2 0 31 -483
push 3 2 4
push 3 1 4
take 1 3
look 3 1 5
push 2 3 5
submit 3 14 1 -569
look 1 3 6
look 1 2 6
take 2 3
ship 3 2
look 1 3 7
look 2 1 6
ship 3 1
look 3 2 5
submit 3 5 7 381
ship 3 1
take 1 3
ship 3 2
push 1 3 4
look 1 3 4
look 2 3 4
push 3 2 5
push 2 1 5
push 3 1 5
push 3 1 4
commit 3
take 1 3
look 1 2 5
take 1 2
submit 2 3 17 885
submit 3 4 23 911
ship 3 2
push 1 2 5
ship 3 1
look 3 1 4
push 1 3 4
look 3 1 4
look 2 1 5
commit 4
commit 2
commit 3
ship 1 3
look 1 3 4
push 1 3 4
take 2 3
submit 3 13 14 125
ship 3 2
look 3 1 4
submit 3 7 12 924
commit 1
look 2 1 6
ship 3 2
submit 3 15 24 121
submit 3 4 4 392
commit 3
push 2 3 5
commit 3
look 2 3 5
commit 3
take 2 3
take 2 3
push 3 2 4
look 3 2 5
ship 3 2
submit 3 4 18 174
ship 3 2
take 2 3
look 3 1 5
take 1 3
take 2 3
ship 3 3
ship 3 2
submit 3 11 3 996
look 2 3 4
push 1 2 5
push 1 3 5
look 1 3 5
look 3 1 5
submit 3 9 28 751
look 2 1 5
commit 4
push 2 3 4
take 2 3
ship 3 1
submit 3 11 27 -322
submit 3 14 29 408
submit 3 1 6 -458
push 3 2 6
push 2 1 4
take 3 2
take 1 3
push 2 3 4
commit 4
elect 2
look 2 1 6
ship 3 2
ship 3 2
take 2 3
look 1 3 6
push 3 2 6
push 2 1 4
ship 3 2
look 1 2 4
look 3 2 4
commit 3
look 3 2 4
commit 3
commit 3
ship 3 1
ship 3 1
take 2 3
take 2 3
take 1 3
submit 3 14 18 627
take 1 3
push 1 3 4
push 3 2 6
take 2 3
ship 3 2
push 2 1 5
push 3 1 6
take 2 3
look 1 2 4
push 2 1 4
look 2 3 7
look 1 2 5
ship 1 2
take 2 3
ship 2 3
ship 1 1
ship 3 1
look 1 2 4
win 3
look 1 3 6
look 2 3 6
submit 3 16 0 -69
push 3 1 6
commit 1
push 2 3 4
ship 3 1
push 3 2 4
ship 3 2
look 2 3 6
look 1 3 6
take 2 3
push 1 3 5
look 3 1 5
commit 2
submit 3 13 1 998
commit 2
commit 2
commit 2
ship 3 1
ship 3 2
take 2 3
look 3 1 4
take 1 3
look 2 3 4
look 3 2 4
look 1 2 6
push 2 3 4
commit 1
submit 1 2 6 2147483648
take 1 3
commit 1
look 2 3 6
commit 3
push 3 1 4
commit 3
push 1 2 4
commit 2
push 3 2 4
commit 2
ship 3 2
push 3 1 6
push 2 3 4
look 2 1 4
commit 2
take 3 2
push 2 3 6
push 2 3 5
push 3 1 5
look 3 2 5
commit 3
push 1 3 6
commit 3
push 3 2 4
take 1 3
elect 1
look 1 3 6
commit 3
push 1 3 3
push 3 2 6
push 1 3 6
take 2 3
take 2 3
look 3 2 6
look 2 3 6
commit 3
commit 1
commit 2
push 3 2 4
look 3 2 4
push 1 2 6
ship 3 2
take 1 0
commit 2
push 2 3 5
push 3 1 5
push 2 1 4
look 1 3 4
push 1 2 6
commit 2
look 3 2 7
push 2 1 3
push 1 3 4
commit 1
ship 3 1
push 2 3 4
push 3 2 5
commit 3
push 1 3 4
push 1 2 5
commit 2
take 1 3
commit 3
push 1 3 4
commit 1
look 1 2 4
push 1 2 5
commit 2
submit 0 99 21 -133
look 2 1 5
look 2 3 4
commit 1
push 3 2 4
look 2 1 5
commit 1
look 3 1 4
look 2 3 5
look 2 1 5
push 2 3 5
look 2 3 4
push 3 1 6
push 2 1 5
push 1 3 5
look 3 1 4
look 1 2 5
look 1 3 6
push 3 1 5
push 1 2 4
look 2 1 4
commit 1
commit 1
look 3 1 4
commit 1
take 3 2
push 2 3 4
push 1 3 4
look 3 1 6
ship 3 1
look 3 1 4
push 2 3 5
commit 1
push 2 1 6
look 3 1 5
look 3 1 6
push 3 1 5
look 2 1 7
take 1 3
look 3 2 5
push 3 1 4
ship 3 1
take 1 3
ship 3 1
look 1 2 6
look 2 1 6
take 1 3
commit 1
look 3 2 4
commit 1
commit 1
push 2 1 5
push 1 3 6
commit 2
ship 3 1
take 1 3
push 2 3 4
push 2 3 4
ship 1 3
look 1 3 5
push 3 1 4
look 3 2 4
push 3 1 6
win 3
ship 3 1
look 1 3 5
look 1 3 5
push 1 2 6
push 2 1 5
look 1 3 6
push 3 1 6
push 3 2 4
look 1 2 5
look 1 3 5
look 3 1 4
commit 3
look 3 1 6
push 2 3 5
commit 3
commit 1
push 2 1 4
timeout 3
take 1 3
look 2 3 5
push 2 3 5
push 2 1 4
push 1 3 6
look 1 2 4
push 2 1 4
",
    prints: "ok
ok
ok
no 5
no 5
ok 0
no 5
no 6
no 6
ok
ok
ok
ok
ok
ok
no 5
ok
ok
ok
ok
no 6
ok
ok
ok
ok
ok
ok
no 6
no 5
ok
ok
ok
ok
ok
ok
no 1
ok
ok
ok
ok
ok
ok
ok
ok
ok
ok
ok
ok
ok
ok
ok
ok
ok
ok 0
no 5
ok
ok
no 7
ok
ok
no 1
ok
ok
no 1
ok
no 6
ok
ok
ok
ok
ok
ok 0 3
ok
ok
ok
ok
ok
no 5
no 1
no 6
ok
ok
ok
ok
ok
ok
ok
no 6
ok
ok
no 5
ok 0
ok
ok
ok
ok
no 5
ok
ok
ok
no 6
no 5
ok
ok
ok 2
ok
ok
ok
no 5
ok
ok
no 6
ok
ok
ok
no 5
ok
ok
no 6
ok
ok
ok
ok
ok
ok
ok
ok
ok
ok
ok
ok
ok
no 1
ok
ok
ok
no 5
ok
ok
ok
ok
ok
ok
ok
ok
ok
ok
ok
no 6
ok
ok 0 3
no 6
ok
ok 2
ok
ok
no 6
ok 0 3 1
ok 1
ok 2
no 6
ok 0 3 2
ok
ok
ok
no 1
ok 1
ok
ok 1
ok
ok 1
ok
ok
ok
ok
ok
ok 0 3 3
ok
no 6
no 5
ok
ok
ok 1
ok
ok
ok 0 3 4
ok
ok
ok 2
ok 1
no 3
ok
ok 1
ok
ok 0 3 5
ok 1
ok 1
ok 1
ok
ok
ok
ok
ok
ok
ok
no 6
ok 1
ok
no 6
no 5
ok 0 3 6
ok 1
ok
ok 1
ok
ok
ok
ok
no 1
no 6
ok 0
no 5
ok
ok
ok 1
ok 0 3 7
ok 1
ok
ok 0 3 8
no 6
ok
ok 1
ok 0 3 9
ok 0 3 10
ok 1
ok
ok 1
ok
ok 1
ok 1
ok 1
ok
ok
ok 1
ok 0 3 11
ok 1
ok 1
no 6
ok 1
ok 1
no 1
ok 1
ok 0 3 12
ok
ok
ok
ok
ok
ok 0 3 13
ok
no 1
ok
ok 1
ok 1
ok 0 3 14
ok 0 3 15
ok 0 3 16
ok
ok
no 6
ok 1
ok
no 1
no 5
no 6
ok 1
ok 1
ok 1
no 6
ok
ok
ok 1
ok
ok
ok 1
ok
ok 1
ok 1
ok 1
ok 1
ok 1
ok 1
ok 1
no 10
ok 1
ok
ok
ok 1
ok 1
ok
ok
ok 1
ok
ok
no 3
ok
no 5
ok 1
no 5
no 1
ok 1
ok
no 5
ok
ok
no 3
ok
ok 0
ok
ok 1
ok
ok 1
ok
ok
ok 1
ok
ok
ok 0
no 10
ok 1
ok 1
ok 1
ok 1
ok 1
ok 1
ok
ok 1
ok
ok
no 6
ok
ok 1
no 3
ok 1
ok 1
ok
ok 1
ok
ok 1
ok
ok 1
ok
ok 1
ok 1
ok
ok
ok
ok 1
no 6
ok
ok
ok
ok
ok 1
ok
ok 1
ok
ok 1
no 5
ok
ok 1
no 3
ok
ok
ok 1
ok 1
ok
ok
ok 1
ok 1
ok 1
ok
ok
ok
no 6
no 1
ok 1
ok
ok
ok
ok
ok
ok 1
no 3
no 3
ok
ok 1
ok 1
ok
ok
ok 1
ok
ok
ok 1
ok 1
ok 1
ok
ok 1
ok
ok
ok 1
no 1
ok
ok
ok 1
ok
ok
ok 1
ok
ok
no 6
ok
ok
ok
ok
ok
ok
ok
ok
ok
ok
ok
ok 1
ok 1
ok
ok 1
no 6
ok
ok
ok
ok 1
ok
ok
ok 1
ok
ok
ok
ok
no 3
ok 1
ok
ok
ok 1
ok 1
ok 1
ok
ok
ok 1
ok 1
ok
ok 1
ok 1
ok
ok
no 6
ok 1
ok 1
ok
ok
no 5
ok
ok
ok
ok
no 5
ok 1
ok
ok
ok
ok
ok
ok
ok
ok
ok
no 6
ok 1
ok
ok
ok 1
no 6
ok
ok 1 3
ok 1
no 6
ok
ok
ok
ok
ok
card 1 0.3.1 0.3.2 0.3.3 0.3.4 0.3.5 0.3.6 0.3.7 0.3.8 0.3.9 0.3.10 0.3.11 0.3.12 0.3.13 0.3.14
card 2 0.3.1 0.3.2 0.3.3 0.3.4 0.3.5 0.3.6 0.3.7 0.3.8 0.3.9 0.3.10 0.3.11
card 3 0.3.1 0.3.2 0.3.3 0.3.4 0.3.5 0.3.6 0.3.7 0.3.8 0.3.9 0.3.10 0.3.11 0.3.12 0.3.13 0.3.14 0.3.15 0.3.16
",
};
