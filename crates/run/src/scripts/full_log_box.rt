use crate::scripts::Stored;

pub(crate) const SCRIPT: Stored = Stored {
    rack: "backplane=box",
    lines: "timeout 1
push 1 2 5
look 2 1 5
elect 2
push 2 1 5
look 1 2 5
win 1
submit 1 4 2 -500
submit 1 4 3 500
submit 1 4 2 250
submit 1 4 2 -500
submit 1 4 3 500
submit 1 4 2 250
submit 1 4 2 -500
submit 1 4 3 500
submit 1 4 2 250
submit 1 4 2 -500
submit 1 4 3 500
submit 1 4 2 250
submit 1 4 2 -500
submit 1 4 3 500
submit 1 4 2 250
submit 1 4 2 -500
submit 1 4 3 500
show 1
timeout 1
push 1 2 5
look 2 1 5
elect 2
push 2 1 5
look 1 2 5
win 1
ship 1 2
take 2 1
",
    prints: "ok 0 1
ok
ok
ok 2
ok
ok
ok 0 1
ok 0 1 1
ok 0 1 2
ok 0 1 3
ok 0 1 4
ok 0 1 5
ok 0 1 6
ok 0 1 7
ok 0 1 8
ok 0 1 9
ok 0 1 10
ok 0 1 11
ok 0 1 12
ok 0 1 13
ok 0 1 14
ok 0 1 15
ok 0 1 16
no 10
card 1: leader
  epoch 0.1, new epoch 0.1, vote 0.1 with 0.0.0
  accepted 0.1.16, committed 0.0.0, next 0.1.0
  peer 2: nothing shipped; accept 0.0.0, vote 0.1 with 0.0.0, commit 0.0.0
  peer 3: nothing shipped; accept 0.0.0, vote 0.0 with 0.0.0, commit 0.0.0
  log: 16 of 16 places
    0.1.1 queue 4: post -500 cents to carrier 2
    0.1.2 queue 4: post 500 cents to carrier 3
    0.1.3 queue 4: post 250 cents to carrier 2
    0.1.4 queue 4: post -500 cents to carrier 2
    0.1.5 queue 4: post 500 cents to carrier 3
    0.1.6 queue 4: post 250 cents to carrier 2
    0.1.7 queue 4: post -500 cents to carrier 2
    0.1.8 queue 4: post 500 cents to carrier 3
    0.1.9 queue 4: post 250 cents to carrier 2
    0.1.10 queue 4: post -500 cents to carrier 2
    0.1.11 queue 4: post 500 cents to carrier 3
    0.1.12 queue 4: post 250 cents to carrier 2
    0.1.13 queue 4: post -500 cents to carrier 2
    0.1.14 queue 4: post 500 cents to carrier 3
    0.1.15 queue 4: post 250 cents to carrier 2
    0.1.16 queue 4: post -500 cents to carrier 2
  ledger: every balance is 0
ok 1 1
ok
ok
ok 2
ok
ok
ok 1 1
no 11
no 6
card 1
card 2
card 3
",
};
